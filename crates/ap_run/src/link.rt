// Files that are linked.
ghost use Rattle.std.specs.Prelude.{◌≡◌, true};
ghost use Rattle.std.specs.Option.{option_copied};
ghost use Rattle.ap_words.specs.declared.command.Command.TheVariants as command;
ghost use Rattle.ap_words.specs.Conditions.{conditions_are_met};
ghost use Rattle.ap_run.specs.Ends.{LinkEnds};
ghost use Rattle.ap_run.specs.Links.{first_name, link_names, second_name};

use crate::end::Cause;
use ap_check::Options;
use ap_claims::Block;
use ap_files::Files;
use ap_link::{LinkEnd, link_stream};
use ap_words::Text;

/// Links one or two files into another, and answers how that ended.
pub fn link<F: Files>(files: &mut F, out: &str, options: &Options, names: &[Text]) -> Cause
    requires { conditions_are_met (command.Link out.now options.now names.now) ≡ true }
    ensures { LinkEnds (F.state files.old) (F.state files.new)
        (link_names out.now options.now names.now) result }
{
    let first = first_of(names);
    let second = second_of(names);
    let mut block = Block::new();
    match link_stream(first, second, options, out, files, &mut block) {
        Ok(_) => Cause::Done,
        Err(LinkEnd::Rule(fault)) => Cause::Refused(fault),
        Err(LinkEnd::ReadFault) => Cause::ReadFault,
        Err(LinkEnd::WriteFault) => Cause::WriteFault,
    }
}

fn first_of(names: &[Text]) -> &str
    ensures { result.now ≡ first_name names.now }
{
    match names.first() {
        Some(name) => name.as_str(),
        None => "",
    }
}

fn second_of(names: &[Text]) -> Option<&str>
    ensures { option_copied result ≡ second_name names.now }
{
    match names.get(1) {
        Some(name) => Some(name.as_str()),
        None => None,
    }
}
