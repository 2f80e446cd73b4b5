// Copies of texts. Each error is want of memory.
ghost use Rattle.std.specs.Prelude.{◌≡◌, IfOk};
ghost use Rattle.std.specs.Fmt as fmt;
ghost use Rattle.ap_shell.specs.Words as words;

use crate::state::Variable;
use sqlite_items::Items;
use std::alloc::{AllocError, Global};

/// A copy of the bytes.
pub fn copy(alloc: Global, bytes: &[u8]) -> Result<Items<u8>, AllocError>
    ensures { IfOk result (λ t. t ≡ bytes.now) }
{
    Items::from_slice(alloc, bytes)
}

/// A copy of the texts.
pub fn copy_words(alloc: Global, texts: &[Items<u8>]) -> Result<Items<Items<u8>>, AllocError>
    ensures { IfOk result (λ t. t ≡ texts.now) }
{
    let mut copies = Items::new(alloc);
    for text in texts {
        copies.push(copy(alloc, text.as_slice())?)?;
    }
    Ok(copies)
}

/// A copy of the variables.
pub fn copy_vars(alloc: Global, vars: &[Variable]) -> Result<Items<Variable>, AllocError>
    ensures { IfOk result (λ t. t ≡ vars.now) }
{
    let mut copies = Items::new(alloc);
    for var in vars {
        let name = copy(alloc, var.name.as_slice())?;
        let value = copy(alloc, var.value.as_slice())?;
        copies.push(Variable { name, value })?;
    }
    Ok(copies)
}

/// The value of a variable: of several of the name the last counts.
pub fn value_of(alloc: Global, name: &[u8], vars: &[Variable]) -> Result<Items<u8>, AllocError>
    ensures { IfOk result (λ t. t ≡ words.value_of name.now vars.now) }
{
    let mut end = vars.len();
    while end > 0 {
        end -= 1;
        let var = &vars[end];
        if var.name.as_slice() == name {
            return copy(alloc, var.value.as_slice());
        }
    }
    Ok(Items::new(alloc))
}

/// The value, or another text where it is empty.
pub fn unless_empty(alloc: Global, value: Items<u8>, other: &[u8]) -> Result<Items<u8>, AllocError>
    ensures { IfOk result (λ t. t ≡ words.unless_empty value other.now) }
{
    if value.is_empty() {
        copy(alloc, other)
    } else {
        Ok(value)
    }
}

/// The texts, joined.
pub fn as_one(alloc: Global, texts: &[Items<u8>]) -> Result<Items<u8>, AllocError>
    ensures { IfOk result (λ t. t ≡ words.as_one texts.now) }
{
    let mut joined = Items::new(alloc);
    for text in texts {
        joined.append(copy(alloc, text.as_slice())?)?;
    }
    Ok(joined)
}

/// A number in decimal.
pub fn decimal(alloc: Global, n: u32) -> Result<Items<u8>, AllocError>
    ensures { IfOk result (λ t. t ≡ fmt.decimal n) }
{
    let text = format!(in alloc; "{n}")?;
    copy(alloc, text.as_bytes())
}

/// The text without the newlines at its end.
pub fn trimmed(alloc: Global, text: &[u8]) -> Result<Items<u8>, AllocError>
    ensures { IfOk result (λ t. t ≡ words.trimmed text.now) }
{
    let mut end = text.len();
    while end > 0 && text[end - 1] == b'\n' {
        end -= 1;
    }
    copy(alloc, &text[..end])
}
