// Where an address of an input stands in the linked file.
ghost use Rattle.std.specs.Prelude.{◌≡◌};
ghost use Rattle.ap_script.specs.Tables as spec;
ghost use Rattle.ap_script.specs.Places.{Placed};

use ap_check::Load;
use ap_fields::floor_to;
use ap_layout::Area;

/// Where the byte of an address in the file part of a load stands in the linked file; 0 where no load has the address there.
pub(crate) fn place_of(granule: u64, loads: &[Load], areas: &[Area], address: u64) -> u64
    requires { Placed granule loads.now areas.now }
    ensures { result ≡ spec.place_of granule loads.now areas.now address }
{
    for i in 0..loads.len() {
        if is_backed(&loads[i], address) {
            return areas[i].file + (address - floor_to(loads[i].vaddr, granule));
        }
    }
    0
}

fn is_backed(p: &Load, address: u64) -> bool
    ensures { result ≡ spec.is_backed p.now address }
{
    p.vaddr <= address && address - p.vaddr < p.filesz
}
