// The ring of sectors: after S-1 comes 0.
ghost use Rattle.std.specs.Prelude.{◌≡◌, ◌<◌};
ghost use Rattle.rules.specs.Meaning.{next, previous};
ghost use Rattle.layout.specs.Numbers.{sector_no};
ghost use Rattle.layout.specs.Geometry.{sectors_of};

use layout::{Geometry, Sector};

// The sector after s.
pub fn next_sector(g: Geometry, s: Sector) -> Sector
    requires { sector_no s < sectors_of g }
    ensures { sector_no result ≡ next (sectors_of g) (sector_no s) }
{
    let above = s.number() + 1;
    if above == g.sectors() {
        return Sector::new(0);
    }
    Sector::new(above)
}

// The sector before s.
pub fn previous_sector(g: Geometry, s: Sector) -> Sector
    requires { sector_no s < sectors_of g }
    ensures { sector_no result ≡ previous (sectors_of g) (sector_no s) }
{
    let number = s.number();
    if number == 0 {
        return Sector::new(g.sectors() - 1);
    }
    Sector::new(number - 1)
}
