// What holds of a file that begins with the block of a linked file.
ghost use Rattle.std.specs.Prelude.{ℕ, List, [], ◌++◌, ◌≡◌, ◌≢◌};
ghost use Rattle.ap_check.specs.declared.options.Options.{Options};
ghost use Rattle.ap_check.specs.Inputs.{Taken};
ghost use Rattle.ap_layout.specs.Positions.{Fits, Positions};
ghost use Rattle.ap_script.specs.Blocks.{block_of};
ghost use Rattle.ap_shell.specs.Places.{host_file};
ghost use Rattle.ap_shell.specs.Runs.{Ends};
ghost use Rattle.ap_shell.specs.declared.types.Env.{Env};
ghost use Rattle.ap_shell.specs.declared.types.Host.{Host};
ghost use Rattle.ap_shparse.specs.declared.tree.Nul.{Nul};
ghost use Rattle.ap_dispatch.specs.Dispatch.{IsReady, copy_name, dispatch_for};

/// A file that begins with a block is a script of the shell grammar, whether a shell keeps NUL bytes or drops them, and
/// what it does is what its dispatch table says, wherever a shell meets what the table supposes.
pub fn scripts_dispatch()
    ensures { (nul : Nul) (options : Options) (inputs : List Taken) (l : Positions) (rest : List ℕ)
        (env : Env) (host : Host) → Fits options inputs l → inputs ≢ []
        → let w = block_of options inputs l ++ rest in
        let end = dispatch_for options inputs l w env host in
        IsReady env host w → Ends nul w env host end.0 end.1 }
{}

/// The dispatch table changes no file of the host but the copy.
pub fn dispatch_leaves_other_files()
    ensures { (options : Options) (inputs : List Taken) (l : Positions) (w : List ℕ)
        (env : Env) (host : Host) (name : List ℕ) → name ≢ copy_name env
        → host_file name (dispatch_for options inputs l w env host).1.files
        ≡ host_file name host.files }
{}
