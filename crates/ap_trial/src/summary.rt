// The summary of a trial.
ghost use Rattle.std.specs.Prelude.{◌≡◌, ◌++◌, OnOk, IfOk};
ghost use Rattle.ap_trial.specs.Summaries.{summary_of, file_lines, x64_lines, a64_lines, size_line, fold_line};

use crate::numbers::{ReadingFolds, SummaryNumbers};
use ap_texts::{push_decimal, push_hex};
use std::alloc::{AllocError, Global};

/// The text of a summary.
pub(crate) fn summary(alloc: Global, numbers: &SummaryNumbers) -> Result<Vec<u8>, AllocError>
    ensures { IfOk result (λ text. text.items ≡ summary_of numbers.now) }
{
    let mut text = Vec::new(alloc);
    push_summary(&mut text, numbers)?;
    Ok(text)
}

#[tactic(auto, using(std::proofs::Common::append_assoc), unfolding(crate::specs::Summaries::summary_of))]
fn push_summary(text: &mut Vec<u8>, numbers: &SummaryNumbers) -> Result<(), AllocError>
    ensures { OnOk result (text.new.items ≡ text.old.items ++ summary_of numbers.now) }
{
    push_files(text, numbers)?;
    push_x64(text, &numbers.folds)?;
    push_a64(text, &numbers.folds)
}

fn push_files(text: &mut Vec<u8>, numbers: &SummaryNumbers) -> Result<(), AllocError>
    ensures { OnOk result (text.new.items ≡ text.old.items ++ file_lines numbers.now) }
{
    push_size(text, b"input 62 bytes ", numbers.x64)?;
    push_size(text, b"input 183 bytes ", numbers.a64)?;
    push_size(text, b"linked ", numbers.linked)?;
    push_fold(text, b"fold ", numbers.fold)
}

fn push_x64(text: &mut Vec<u8>, folds: &ReadingFolds) -> Result<(), AllocError>
    ensures { OnOk result (text.new.items ≡ text.old.items ++ x64_lines folds.now) }
{
    push_fold(text, b"reading pe fold ", folds.pe)?;
    push_fold(text, b"reading mach fold ", folds.mach)?;
    push_fold(text, b"reading elf-62 fold ", folds.elf_x64)?;
    push_fold(text, b"reading ape-62 fold ", folds.ape_x64)
}

fn push_a64(text: &mut Vec<u8>, folds: &ReadingFolds) -> Result<(), AllocError>
    ensures { OnOk result (text.new.items ≡ text.old.items ++ a64_lines folds.now) }
{
    push_fold(text, b"reading elf-183 fold ", folds.elf_a64)?;
    push_fold(text, b"reading ape-183-4096 fold ", folds.ape_a64_4096)?;
    push_fold(text, b"reading ape-183-16384 fold ", folds.ape_a64_16384)
}

#[tactic(auto, using(std::proofs::Common::append_assoc), unfolding(crate::specs::Summaries::size_line))]
fn push_size(text: &mut Vec<u8>, words: &[u8], size: usize) -> Result<(), AllocError>
    ensures { OnOk result (text.new.items ≡ text.old.items ++ size_line words.now size) }
{
    text.extend_from_slice(words)?;
    push_decimal(text, size as u64)?;
    text.extend_from_slice(b"\n")
}

#[tactic(auto, using(std::proofs::Common::append_assoc), unfolding(crate::specs::Summaries::fold_line))]
fn push_fold(text: &mut Vec<u8>, words: &[u8], fold: u64) -> Result<(), AllocError>
    ensures { OnOk result (text.new.items ≡ text.old.items ++ fold_line words.now fold) }
{
    text.extend_from_slice(words)?;
    push_hex(text, fold)?;
    text.extend_from_slice(b"\n")
}
