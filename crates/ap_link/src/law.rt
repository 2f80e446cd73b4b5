// What an APE loader takes of a file that begins with the block of a linked file.
ghost use Rattle.std.specs.Prelude.{◌≡◌, ◌≢◌, ◌++◌, ℕ, true, List, All, Some, None};
ghost use Rattle.ap_loader.specs.Embedded.{has_magic, taken};
ghost use Rattle.ap_elf.specs.Machines.{number_of};
ghost use Rattle.ap_check.specs.declared.options.Options.{Options};
ghost use Rattle.ap_check.specs.Inputs.{Taken, Meets};
ghost use Rattle.ap_layout.specs.Positions.{Positions, PlacedInput, placed_inputs, Fits};
ghost use Rattle.ap_script.specs.Tables.{embedded_bytes};
ghost use Rattle.ap_script.specs.Blocks.{block_of};
ghost use Rattle.ap_script.specs.Stands.{MachinesDiffer, IsOneOf, statement_place};

/// A file that begins with a block has the magic of an Actually Portable Executable (APE specification).
pub fn blocks_have_magic()
    ensures { (options : Options) (inputs : List Taken) (l : Positions) (rest : List ℕ)
        → has_magic (block_of options inputs l ++ rest) ≡ true }
{}

/// A loader for the machine of an input takes the input's statement (APE specification), whatever stands behind the block. A
/// loader for a machine that no input is for takes none.
pub fn statements_are_taken()
    ensures taken { (options : Options) (inputs : List Taken) (l : Positions) (rest : List ℕ)
        (p : PlacedInput) → All Meets inputs → MachinesDiffer inputs → Fits options inputs l
        → IsOneOf p (placed_inputs inputs l)
        → taken (number_of p.input.machine) (block_of options inputs l ++ rest)
        ≡ Some (statement_place options inputs l p.input.machine, embedded_bytes p.input p.table) }
    ensures other { (options : Options) (inputs : List Taken) (l : Positions) (rest : List ℕ)
        (number : ℕ) → All Meets inputs → Fits options inputs l
        → All (λ e. number_of e.machine ≢ number) inputs
        → taken number (block_of options inputs l ++ rest) ≡ None }
{}
