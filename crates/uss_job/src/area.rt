// The area round all extents of all alternatives.
ghost use Rattle.std.specs.Prelude.{◌≡◌, IfOk, None};
ghost use Rattle.std.specs.Int.{int_max, int_min};
ghost use Rattle.std.specs.List.{fold};
ghost use Rattle.uss_vol4.specs.Bounding.{bounding_box, joined, joined_rect};
ghost use Rattle.uss_law_duty.specs.Sends.{all_extents, area_round};
ghost use Rattle.uss_job.specs.Area.{HasExtents, box_or_zeros, with_volume};

use std::alloc::{AllocError, Global};
use uss_event::Proposal;
use uss_shape::Rect;
use uss_vol4::{Box4, Volume4};

fn lesser(a: i64, b: i64) -> i64
    ensures { result ≡ int_min a b }
{
    a.min(b)
}

fn greater(a: i64, b: i64) -> i64
    ensures { result ≡ int_max a b }
{
    a.max(b)
}

fn joined_rect(r: Rect, s: Rect) -> Rect
    ensures { result ≡ joined_rect r s }
{
    Rect {
        x1: lesser(r.x1, s.x1),
        y1: lesser(r.y1, s.y1),
        x2: greater(r.x2, s.x2),
        y2: greater(r.y2, s.y2),
    }
}

/// The least box round two.
fn joined(a: Box4, b: Box4) -> Box4
    ensures { result ≡ joined a b }
{
    Box4 {
        rect: joined_rect(a.rect, b.rect),
        low: lesser(a.low, b.low),
        high: greater(a.high, b.high),
        start: lesser(a.start, b.start),
        end: greater(a.end, b.end),
    }
}

fn with_volume(bounds: Option<Box4>, volume: &Volume4) -> Option<Box4>
    ensures { result ≡ with_volume bounds volume.now }
{
    match bounds {
        Some(bounds) => Some(joined(bounds, volume.bounds())),
        None => Some(volume.bounds()),
    }
}

fn with_volumes(bounds: Option<Box4>, volumes: &[Volume4]) -> Option<Box4>
    ensures { result ≡ fold with_volume bounds volumes.now }
{
    volumes
        .iter()
        .fold(bounds, |bounds, volume| with_volume(bounds, volume))
}

fn with_proposal(bounds: Option<Box4>, proposal: &Proposal) -> Option<Box4>
    ensures { result ≡ fold with_volume (fold with_volume bounds proposal.now.volumes) proposal.now.off_nominal }
{
    let bounds = with_volumes(bounds, proposal.volumes.as_slice());
    with_volumes(bounds, proposal.off_nominal.as_slice())
}

fn with_proposals(proposals: &[Proposal]) -> Option<Box4>
    ensures { result ≡ fold (λ b p. fold with_volume (fold with_volume b p.volumes) p.off_nominal) None proposals.now }
{
    proposals
        .iter()
        .fold(None, |bounds, proposal| with_proposal(bounds, proposal))
}

/// The box of zeros where there is none.
#[tactic(auto, unfolding(uss_vol4::specs::Bounding::bounding_box))]
fn box_or_zeros(bounds: Option<Box4>) -> Box4
    ensures { result ≡ box_or_zeros bounds }
{
    match bounds {
        Some(bounds) => bounds,
        None => Box4 {
            rect: Rect {
                x1: 0,
                y1: 0,
                x2: 0,
                y2: 0,
            },
            low: 0,
            high: 0,
            start: 0,
            end: 0,
        },
    }
}

/// The least box round all extents of all alternatives.
fn box_round(proposals: &[Proposal]) -> Box4
    ensures { result ≡ bounding_box (all_extents proposals.now) }
{
    box_or_zeros(with_proposals(proposals))
}

/// The rectangular volume round all extents of all alternatives. Only memory can be wanting.
pub(crate) fn area_round(alloc: Global, proposals: &[Proposal]) -> Result<Volume4, AllocError>
    requires { HasExtents proposals.now }
    ensures { IfOk result (λ v. v ≡ area_round proposals.now) }
{
    match box_round(proposals).volume(alloc) {
        Ok(area) => Ok(area),
        Err(_) => Err(AllocError),
    }
}
