// The table of surfaces: what it must satisfy before a run begins (refusal 13), and where a surface lies.

#![tactic(auto)]

ghost use Rattle.std.specs.Prelude.{◌≡◌, length};
ghost use Rattle.bits.specs.Below.{every_below};
ghost use Rattle.surface_table.specs.Surfaces.{surface_length, surface_start, surface_good_at, surfaces_good};
ghost use Rattle.surface_table.specs.Borrowed.{surface_table};

// The bytes of a surface, 0 for one that is not in the table.
#[tactic(auto, unfolding(crate::specs::Surfaces::surface_length))]
pub fn surface_length(surfaces: &[u16], index: u8) -> u16
    ensures { result ≡ surface_length (surface_table surfaces) index }
{
    surfaces.get(usize::from(index)).copied().unwrap_or(0)
}

// Where a surface begins in the surface buffer: the lengths before it, added up.
#[tactic(auto, unfolding(crate::specs::Surfaces::surface_start))]
pub fn surface_start(surfaces: &[u16], index: u8) -> usize
    ensures { result ≡ surface_start (surface_table surfaces) index }
{
    let mut sum = 0;
    for before in 0..index {
        sum += usize::from(surface_length(surfaces, before));
    }
    sum
}

fn every_surface_good(surfaces: &[u16]) -> bool
    ensures { result ≡ every_below (length surfaces.now) (surface_good_at (surface_table surfaces)) }
{
    surfaces.iter().all(|length| *length <= 1024)
}

// Whether the table and the length of the surface buffer keep the sizes.
// `as`: the number is 8 at most, and a `try_from` would have an Err that no value reaches.
#[tactic(auto, unfolding(crate::specs::Surfaces::surfaces_good))]
pub fn surfaces_good(bytes: usize, surfaces: &[u16]) -> bool
    ensures { result ≡ surfaces_good bytes (surface_table surfaces) }
{
    surfaces.len() <= 8
        && every_surface_good(surfaces)
        && surface_start(surfaces, surfaces.len() as u8) == bytes
}
