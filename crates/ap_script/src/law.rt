// What holds of the block of a linked file, by its definitions.
ghost use Rattle.std.specs.Prelude.{◌≡◌, ◌+◌, ◌<◌, ◌≤◌, ◌++◌, ◌↔◌, ℕ, List, length, All, Contains, Some, None};
ghost use Rattle.memchr.specs.Find.{Nowhere};
ghost use Rattle.ap_fields.specs.declared.sizes.TheConstants.{BLOCK, WINDOW};
ghost use Rattle.ap_fields.specs.Bytes.{Holds};
ghost use Rattle.ap_octal.specs.DdPlace.{FirstDd, HasDd};
ghost use Rattle.ap_octal.specs.Embedded.{Opens, Embeds};
ghost use Rattle.ap_octal.specs.Statement.{octals_of, statement_of};
ghost use Rattle.ap_check.specs.declared.options.Options.{Options};
ghost use Rattle.ap_elf.specs.declared.constants.TheConstants.{EHDR_SIZE};
ghost use Rattle.ap_elf.specs.declared.machine.Machine.TheVariants.{X64, A64};
ghost use Rattle.ap_elf.specs.Machines.{granule_of};
ghost use Rattle.ap_check.specs.Inputs.{Taken, Meets};
ghost use Rattle.ap_layout.specs.declared.sizes.TheConstants.{OPENING};
ghost use Rattle.ap_layout.specs.declared.layout.Area.{Area};
ghost use Rattle.ap_layout.specs.Areas.{ServeAll};
ghost use Rattle.ap_layout.specs.MachPlaces.{mach_input};
ghost use Rattle.ap_layout.specs.Positions.{Positions, PlacedInput, placed_inputs, Fits, table_length};
ghost use Rattle.ap_script.specs.Tables.{embedded_bytes, table_text};
ghost use Rattle.ap_script.specs.Delimiter.{delimiter_number};
ghost use Rattle.ap_script.specs.Blocks.{magic, body_of, shell_text, block_of};
ghost use Rattle.ap_script.specs.Claims.{BlockIsClaimed};
ghost use Rattle.ap_script.specs.Stands.{MachinesDiffer, IsOneOf, HoldsTables, HasZeros, HasFreeDelimiter, statement_place, statement_places, script_dd};

/// An embedded header has 64 bytes. A program header table has 56 for each of its entries, where areas serve the input's loads.
pub fn headers_have_lengths()
    ensures header { (e : Taken) (t : ℕ) → length (embedded_bytes e t) ≡ EHDR_SIZE }
    ensures table { (news areas : List Area) (e : Taken)
        → ServeAll (granule_of e.machine) news e.loads areas
        → length (table_text e areas) ≡ table_length e }
{}

/// Where the positions fit, a block has 16384 bytes, and the here-document and the script end in its first half.
pub fn blocks_have_lengths()
    ensures body { (options : Options) (inputs : List Taken) (l : Positions) → Fits options inputs l
        → OPENING + length (body_of options inputs l) ≡ l.body_end }
    ensures text { (options : Options) (inputs : List Taken) (l : Positions) → Fits options inputs l
        → length (shell_text options inputs l) ≤ WINDOW }
    ensures block { (options : Options) (inputs : List Taken) (l : Positions)
        → Fits options inputs l → length (block_of options inputs l) ≡ BLOCK }
{}

/// Where the positions fit, the block is the file of its claims: each claim's bytes stand at its place, and 0 where no claim is.
pub fn blocks_are_claimed()
    ensures { BlockIsClaimed }
{}

/// A file that begins with a block begins as an Actually Portable Executable (APE specification), and has the here-document's
/// body from 86 on; and, where the positions fit, each program header table at its place.
pub fn blocks_hold_tables()
    ensures begins { (options : Options) (inputs : List Taken) (l : Positions) (rest : List ℕ)
        → Holds (block_of options inputs l ++ rest) 0 (magic options) }
    ensures body { (options : Options) (inputs : List Taken) (l : Positions) (rest : List ℕ)
        → Holds (block_of options inputs l ++ rest) OPENING (body_of options inputs l) }
    ensures tables { (options : Options) (inputs : List Taken) (l : Positions) (rest : List ℕ)
        → Fits options inputs l
        → HoldsTables (block_of options inputs l ++ rest) (placed_inputs inputs l) }
{}

/// Where the inputs meet their rules and the positions fit, each eight bytes of the body that follow each other hold a zero byte.
pub fn bodies_hold_zeros()
    ensures { (options : Options) (inputs : List Taken) (l : Positions) → All Meets inputs
        → Fits options inputs l → HasZeros (body_of options inputs l) }
{}

/// In the first 8192 bytes of a file that begins with a block, of inputs for different machines that meet their rules and with
/// positions that fit, `printf '` stands where the script has its statements, one for each input, that for x86-64 first, and
/// nowhere else. What stands there is the canonical statement of the input's embedded
/// header, up to a quote in the same bytes, and embeds that header (APE specification).
pub fn statements_stand()
    ensures only { (options : Options) (inputs : List Taken) (l : Positions) (rest : List ℕ) (k : ℕ)
        → All Meets inputs → Fits options inputs l
        → Opens (block_of options inputs l ++ rest) k
        ↔ Contains (statement_places options inputs l) k }
    ensures count { (options : Options) (inputs : List Taken) (l : Positions)
        → MachinesDiffer inputs → Fits options inputs l
        → length (statement_places options inputs l) ≡ length inputs }
    ensures order { (options : Options) (inputs : List Taken) (l : Positions)
        → statement_place options inputs l X64 < statement_place options inputs l A64 }
    ensures text { (options : Options) (inputs : List Taken) (l : Positions) (rest : List ℕ)
        (p : PlacedInput) → MachinesDiffer inputs → Fits options inputs l
        → IsOneOf p (placed_inputs inputs l)
        → Holds (block_of options inputs l ++ rest)
        (statement_place options inputs l p.input.machine)
        (statement_of (embedded_bytes p.input p.table)) }
    ensures within { (options : Options) (inputs : List Taken) (l : Positions) (p : PlacedInput)
        → MachinesDiffer inputs → Fits options inputs l
        → IsOneOf p (placed_inputs inputs l)
        → statement_place options inputs l p.input.machine
        + length (statement_of (embedded_bytes p.input p.table)) ≤ WINDOW }
    ensures embeds { (options : Options) (inputs : List Taken) (l : Positions) (rest : List ℕ)
        (p : PlacedInput) → MachinesDiffer inputs → Fits options inputs l
        → IsOneOf p (placed_inputs inputs l)
        → let place = statement_place options inputs l p.input.machine in
        Embeds (block_of options inputs l ++ rest) place
        (place + 8 + length (octals_of (embedded_bytes p.input p.table)))
        (embedded_bytes p.input p.table) }
{}

/// Of inputs that meet their rules, with positions that fit: where one has a Mach-O header, the first `dd` statement in the first
/// 8192 bytes of a file that begins with a block is the one in the script (APE specification, the assimilator). It copies that
/// header, by its place and its length in blocks of eight bytes. Where none has one, no `dd` statement stands there.
pub fn dd_statements_stand()
    ensures first { (options : Options) (inputs : List Taken) (l : Positions) (rest : List ℕ)
        (e : Taken) → All Meets inputs → Fits options inputs l → mach_input options inputs ≡ Some e
        → FirstDd (block_of options inputs l ++ rest) (script_dd l) }
    ensures none { (options : Options) (inputs : List Taken) (l : Positions) (rest : List ℕ)
        → All Meets inputs → Fits options inputs l → mach_input options inputs ≡ None
        → Nowhere (HasDd (block_of options inputs l ++ rest)) 0 WINDOW }
{}

/// The delimiter of a body that is shorter than 8192 bytes has a number below 8192 and stands nowhere in the body, whether a
/// shell keeps the body's NUL bytes or drops them. So no line of the body ends the here-document (POSIX.1 Shell Command
/// Language, "Here-Document").
pub fn delimiters_are_free()
    ensures number { (body : List ℕ) → length body < WINDOW → delimiter_number body < WINDOW }
    ensures free { (body : List ℕ) → length body < WINDOW → HasFreeDelimiter body }
{}
