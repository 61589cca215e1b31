// Declines 1, 2 and 3, which open every call of the device.
ghost use Rattle.std.specs.Prelude.{◌≡◌, IfOk};
ghost use Rattle.words.specs.Decline.{verdict_from};
ghost use Rattle.geometry.specs.Lent.{lengths_of};
ghost use Rattle.common_declines.specs.CommonDecline.{common_decline_of};

use crate::possible::is_possible;
use device::record::Device;
use geometry::banks::Geometry;
use geometry::layout::Layout;
use geometry::lent::{Lent, lent_decline};
use words::decline::Decline;

// The verdict by declines 1, 2 and 3. Handed on without the layout, it is answered in a register.
#[tactic(auto, unfolding(crate::specs::CommonDecline::common_decline_of))]
fn common_verdict(g: Geometry, d: Device, lent: Lent, sram: usize) -> Result<(), Decline>
    ensures { result ≡ common_decline_of g d (lengths_of lent) sram }
{
    let layout = lent_decline(g, lent, sram)?;
    if !is_possible(layout, d) {
        return Err(Decline::Device);
    }
    Ok(())
}

// Which of declines 1, 2 and 3 applies; an SRAM of length 0 where none is lent.
#[inline(always)]
pub fn common_decline(g: Geometry, d: Device, lent: Lent, sram: usize) -> Result<Layout, Decline>
    ensures verdict { verdict_from result ≡ common_decline_of g d (lengths_of lent) sram }
    ensures layout { IfOk result (λ layout. layout.geometry ≡ g) }
{
    common_verdict(g, d, lent, sram)?;
    Ok(Layout { geometry: g })
}
