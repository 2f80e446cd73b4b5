// What is taken of an input.
use crate::load::Load;
use crate::symbols::Symbols;
use ap_elf::{Entry, Machine};
use ap_fields::MOST_LOADS;
use arrayvec::ArrayVec;
use std::marker::Model;

/// An input that meets the rules. It doesn't hold the file's bytes.
#[derive(Drop)]
pub struct Input {
    /// The file's length in bytes, from 64 to 2^28.
    pub size: u64,
    /// The input's number, 1 or 2.
    pub number: u8,
    /// The machine that it is for (`e_machine`).
    pub machine: Machine,
    /// The address at which the program starts, in a load that may be executed (`e_entry`).
    pub entry: u64,
    /// The loads, in the order of the program header table.
    pub loads: ArrayVec<Load, MOST_LOADS>,
    /// The template of thread-local storage, the entry of type `PT_TLS`.
    pub tls: Option<Entry>,
    /// The first entry of type `PT_GNU_STACK`, whose `p_memsz` is the size of the stack that is asked for.
    pub stack: Option<Entry>,
    /// The first five entries of type `PT_NOTE` that have bytes, all of them in the file part of one load.
    pub notes: ArrayVec<Entry, 5>,
    /// The values of the symbols that the linker looks for.
    pub symbols: Symbols,
}

impl Model for Input {
    ghost use Rattle.ap_check.specs.Inputs.{Taken, Meets};

    ghost Value = { Taken };

    ghost view = { λ i. record { size = i.size; number = i.number; machine = i.machine; entry = i.entry; loads = i.loads.items; tls = i.tls; stack = i.stack; notes = i.notes.items; symbols = i.symbols } };

    ghost invariant = { λ i. Meets (record { size = i.size; number = i.number; machine = i.machine; entry = i.entry; loads = i.loads.items; tls = i.tls; stack = i.stack; notes = i.notes.items; symbols = i.symbols }) };
}
