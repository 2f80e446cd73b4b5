// The systems that a list of names chooses.
ghost use Rattle.std.specs.Prelude.{◌≡◌};
ghost use Rattle.std.specs.Option.{option_copied};
ghost use Rattle.ap_words.specs.Systems as spec;

use ap_check::Systems;
use bitflags::Flags;

/// The systems of a list of names, or all but Windows.
pub fn systems_or_usual(list: Option<&str>) -> Option<Systems>
    ensures { result ≡ spec.systems_or_usual (option_copied list.entry) }
{
    match list {
        None => Some(usual_systems()),
        Some(list) => systems_in(list),
    }
}

// The systems of a list of names that are joined by commas, each of them `linux`, `freebsd`, `netbsd`, `windows` or `mac`. There
// is one name at least, and a name may stand more than once.
#[tactic(auto, unfolding(crate::specs::Systems::systems_in))]
fn systems_in(list: &str) -> Option<Systems>
    ensures { result ≡ spec.systems_in list.now }
{
    let Some((name, rest)) = list.split_once(',') else {
        return system_named(list);
    };
    let system = system_named(name)?;
    let others = systems_in(rest)?;
    Some(system.union(others))
}

fn system_named(name: &str) -> Option<Systems>
    ensures { result ≡ spec.system_named name.now }
{
    if name == "linux" {
        Some(Systems::LINUX)
    } else if name == "freebsd" {
        Some(Systems::FREEBSD)
    } else if name == "netbsd" {
        Some(Systems::NETBSD)
    } else if name == "windows" {
        Some(Systems::WINDOWS)
    } else if name == "mac" {
        Some(Systems::MAC)
    } else {
        None
    }
}

// The systems of a link that names none: all but Windows.
fn usual_systems() -> Systems
    ensures { result ≡ spec.usual_systems }
{
    Systems::LINUX
        .union(Systems::FREEBSD)
        .union(Systems::NETBSD)
        .union(Systems::MAC)
}
