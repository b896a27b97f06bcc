// The lookup, one region at a time.
ghost use Rattle.std.specs.Prelude.{◌≡◌, ◌+◌, ◌*◌, ◌<◌, length, IfOk, IfErr, Err};
ghost use Rattle.chip.specs.Geometry.{region_of};
ghost use Rattle.probe.specs.Probe.{probes};
ghost use Rattle.lookup.specs.Turns.{turn_of, lookup_in, hits, hit_of};

use crate::gather::note;
use crate::{Found, Hit, Looked, Seen};
use chip::Chip;
use refusals::Refusal;
use region::{Event, Standing, Want};
use std::ops::ControlFlow;

// R5.1: one more region, number r: the lookup goes on with what it has gathered, or it ends. Append needs room for a record of so many bytes,
// nothing else needs any. This is the policy of every lookup, and `Seen::close` is the rest of it.
pub fn take_turn(
    seen: Seen,
    key: u64,
    need: Option<usize>,
    r: usize,
    region: &[u8],
) -> ControlFlow<Looked, Seen>
    requires { r * length region.now + length region.now < 18446744073709551616 }
    ensures { result ≡ turn_of seen key need r region.now }
{
    let event = region::find(region, Want::Key(key));
    match event {
        Event::Live(rec) => ControlFlow::Break(Looked::Live { region: r, rec }),
        Event::Bad(fault, at) => ControlFlow::Break(Looked::Bad {
            fault,
            place: r * region.len() + at,
        }),
        Event::End(at) => ControlFlow::Continue(note(seen, need, r, region, at)),
    }
}

// The regions of a chip in the key's probe order.
pub fn look_up(chip: &Chip, key: u64, need: Option<usize>) -> Looked
    ensures { result ≡ lookup_in key need chip.now.s chip.now.image.now (probes key chip.now.n) }
{
    let n = chip.n;
    let home = probe::get_region(key, n);
    let mut seen = Seen::new();
    for i in 0..n {
        let r = probe::probe_at(home, n, i);
        let next = take_turn(seen, key, need, r, chip.region(r));
        match next {
            ControlFlow::Break(looked) => return looked,
            ControlFlow::Continue(more) => seen = more,
        }
    }
    seen.close()
}

// The key's live record, as get and the removals look for it.
pub fn find_key(image: &[u8], s: usize, n: usize, key: u64) -> Result<Hit, Refusal>
    ensures { result ≡ hit_of image.now s n key }
{
    refusals::first_refusal(image, s, n, key, 0)?;
    let chip = Chip { image, s, n };
    let looked = look_up(&chip, key, None);
    looked.hit()
}

// R5.2, R16.1: that record where it stands, for get and for whoever reads its value in place.
pub fn find_standing<'a>(
    image: &'a [u8],
    s: usize,
    n: usize,
    key: u64,
) -> Result<Found<'a>, Refusal>
    ensures found { IfOk result (λ f. hit_of image.now s n key ≡ hits f.region f.standing.rec) }
    ensures region { IfOk result (λ f. f.standing.region.now ≡ region_of s image.now f.region) }
    ensures size { IfOk result (λ f. length f.standing.region.now ≡ s) }
    ensures refused { IfErr result (λ refusal. hit_of image.now s n key ≡ Err refusal) }
{
    let Hit { region, rec } = find_key(image, s, n, key)?;
    let chip = Chip { image, s, n };
    let standing = Standing {
        region: chip.region(region),
        rec,
    };
    Ok(Found { region, standing })
}
