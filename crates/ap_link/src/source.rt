// The inputs of a link of files.
use ap_check::Input;

/// An input that was taken, and the name of its file.
#[derive(Clone, Copy)]
pub struct Source<'a> {
    pub name: &'a str,
    pub input: &'a Input,
}

/// One or two inputs.
#[derive(Clone, Copy)]
pub struct Sources<'a> {
    pub first: Source<'a>,
    pub second: Option<Source<'a>>,
}
