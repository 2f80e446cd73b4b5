// The options and operands of each command word.
ghost use Rattle.std.specs.Prelude.{◌≡◌, IfOk, false, codes};
ghost use Rattle.clap.specs.Words.{app_of, rule_of, with_rule};
ghost use Rattle.ap_words.specs.Tables.{app_for, flag_rule, inputs_rule, needed_rule, operand_rule, option_rule, out_rule, plain_app, words_rule};
ghost use Rattle.ap_words.specs.declared.word.Word.TheVariants as word;

use crate::word::Word;
use clap::{Arg, ArgAction};
use std::alloc::{AllocError, Global};

/// The `clap` command of a command word.
pub fn declared<'a>(alloc: Global, word: Word) -> Result<clap::Command<'a>, AllocError>
    ensures { IfOk result (λ c. app_of c ≡ app_for word) }
{
    match word {
        Word::Link => link(alloc),
        Word::Load => load(alloc),
        Word::Map => map(alloc),
        Word::Script => script(alloc),
        Word::Assimilate => assimilate(alloc),
        Word::Inspect => inspect(alloc),
        Word::Trial => trial(alloc),
        Word::Bind => bind(alloc),
        Word::Bundle => bundle(alloc),
        Word::Stack => stack(alloc),
        Word::Audit => audit(alloc),
    }
}

fn link<'a>(alloc: Global) -> Result<clap::Command<'a>, AllocError>
    ensures { IfOk result (λ c. app_of c ≡ app_for word.Link) }
{
    let command = with(plain(alloc, "link"), out(alloc))?;
    let command = with(command, option(alloc, "systems"))?;
    let command = with(command, flag(alloc, "debug-magic"))?;
    with(command, inputs(alloc))
}

fn load<'a>(alloc: Global) -> Result<clap::Command<'a>, AllocError>
    ensures { IfOk result (λ c. app_of c ≡ app_for word.Load) }
{
    let command = with(plain(alloc, "load"), option(alloc, "machine"))?;
    let command = with(command, option(alloc, "page"))?;
    let command = with(command, option(alloc, "dump"))?;
    with(command, operand(alloc, "file"))
}

fn map<'a>(alloc: Global) -> Result<clap::Command<'a>, AllocError>
    ensures { IfOk result (λ c. app_of c ≡ app_for word.Map) }
{
    let command = with(plain(alloc, "map"), needed(alloc, "as"))?;
    let command = with(command, option(alloc, "machine"))?;
    let command = with(command, option(alloc, "page"))?;
    with_two(command, flag(alloc, "imports"), operand(alloc, "file"))
}

fn script<'a>(alloc: Global) -> Result<clap::Command<'a>, AllocError>
    ensures { IfOk result (λ c. app_of c ≡ app_for word.Script) }
{
    let command = with(plain(alloc, "script"), needed(alloc, "system"))?;
    let command = with(command, needed(alloc, "machine"))?;
    let command = with(command, flag(alloc, "ape"))?;
    with_two(command, option(alloc, "nul"), operand(alloc, "file"))
}

fn assimilate<'a>(alloc: Global) -> Result<clap::Command<'a>, AllocError>
    ensures { IfOk result (λ c. app_of c ≡ app_for word.Assimilate) }
{
    let command = with(plain(alloc, "assimilate"), needed(alloc, "as"))?;
    let command = with(command, option(alloc, "machine"))?;
    with_two(command, out(alloc), operand(alloc, "file"))
}

fn inspect<'a>(alloc: Global) -> Result<clap::Command<'a>, AllocError>
    ensures { IfOk result (λ c. app_of c ≡ app_for word.Inspect) }
{
    with(plain(alloc, "inspect"), operand(alloc, "file"))
}

fn trial<'a>(alloc: Global) -> Result<clap::Command<'a>, AllocError>
    ensures { IfOk result (λ c. app_of c ≡ app_for word.Trial) }
{
    with_two(
        plain(alloc, "trial"),
        operand(alloc, "number"),
        operand(alloc, "pages"),
    )
}

fn bind<'a>(alloc: Global) -> Result<clap::Command<'a>, AllocError>
    ensures { IfOk result (λ c. app_of c ≡ app_for word.Bind) }
{
    let command = with(plain(alloc, "bind"), needed(alloc, "at"))?;
    with_two(command, out(alloc), operand(alloc, "file"))
}

fn bundle<'a>(alloc: Global) -> Result<clap::Command<'a>, AllocError>
    ensures { IfOk result (λ c. app_of c ≡ app_for word.Bundle) }
{
    let command = with(plain(alloc, "bundle"), out(alloc))?;
    let command = with(command, needed(alloc, "app"))?;
    with_two(command, option(alloc, "x86-64"), option(alloc, "aarch64"))
}

fn stack<'a>(alloc: Global) -> Result<clap::Command<'a>, AllocError>
    ensures { IfOk result (λ c. app_of c ≡ app_for word.Stack) }
{
    let command = with(plain(alloc, "stack"), option(alloc, "machine"))?;
    let command = with(command, option(alloc, "page"))?;
    let command = with(command, out(alloc))?;
    with_two(command, operand(alloc, "file"), words(alloc))
}

fn audit<'a>(alloc: Global) -> Result<clap::Command<'a>, AllocError>
    ensures { IfOk result (λ c. app_of c ≡ app_for word.Audit) }
{
    with(plain(alloc, "audit"), operand(alloc, "file"))
}

// A command with no flags for help and version.
fn plain<'a>(alloc: Global, name: &'a str) -> clap::Command<'a>
    ensures { app_of result ≡ plain_app name.now }
{
    clap::Command::new(alloc, name).disable_help_flag(true)
}

fn with<'a>(command: clap::Command<'a>, arg: Arg<'a>) -> Result<clap::Command<'a>, AllocError>
    requires { arg.global ≡ false }
    ensures { IfOk result (λ c. app_of c ≡ with_rule (app_of command.entry) (rule_of arg.entry)) }
{
    command.arg(arg)
}

fn with_two<'a>(
    command: clap::Command<'a>,
    first: Arg<'a>,
    second: Arg<'a>,
) -> Result<clap::Command<'a>, AllocError>
    requires first { first.global ≡ false }
    requires second { second.global ≡ false }
    ensures { IfOk result (λ c. app_of c
        ≡ with_rule (with_rule (app_of command.entry) (rule_of first.entry)) (rule_of second.entry)) }
{
    let command = with(command, first)?;
    with(command, second)
}

fn option<'a>(alloc: Global, name: &'a str) -> Arg<'a>
    ensures rule { rule_of result ≡ option_rule name.now }
    ensures local { result.global ≡ false }
{
    Arg::new(alloc, name).long(name)
}

fn needed<'a>(alloc: Global, name: &'a str) -> Arg<'a>
    ensures rule { rule_of result ≡ needed_rule name.now }
    ensures local { result.global ≡ false }
{
    Arg::new(alloc, name).long(name).required(true)
}

fn flag<'a>(alloc: Global, name: &'a str) -> Arg<'a>
    ensures rule { rule_of result ≡ flag_rule name.now }
    ensures local { result.global ≡ false }
{
    Arg::new(alloc, name).long(name).action(ArgAction::SetTrue)
}

fn out<'a>(alloc: Global) -> Arg<'a>
    ensures rule { rule_of result ≡ out_rule }
    ensures local { result.global ≡ false }
{
    Arg::new(alloc, "out").short('o').required(true)
}

fn operand<'a>(alloc: Global, name: &'a str) -> Arg<'a>
    ensures rule { rule_of result ≡ operand_rule name.now }
    ensures local { result.global ≡ false }
{
    Arg::new(alloc, name).required(true)
}

// One input or two, which stand together.
fn inputs<'a>(alloc: Global) -> Arg<'a>
    ensures rule { rule_of result ≡ inputs_rule }
    ensures local { result.global ≡ false }
{
    Arg::new(alloc, "in").required(true).num_args(1..=2)
}

// Any number of words, between which options may stand.
fn words<'a>(alloc: Global) -> Arg<'a>
    ensures rule { rule_of result ≡ words_rule }
    ensures local { result.global ≡ false }
{
    Arg::new(alloc, "word")
        .action(ArgAction::Append)
        .num_args(0..)
}
