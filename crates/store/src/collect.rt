// Collect: regions whose records are all dead are erased.
ghost use Rattle.std.specs.Prelude.{◌≡◌};
ghost use Rattle.store.specs.Collect.{collect_of};

use plans::{Answer, Success};
use refusals::Refusal;
use sweeping::Verdict;

// R5.7, R5.8: collect.
pub fn garbage_collect(image: &mut [u8], s: usize, n: usize) -> Answer
    ensures { (result ≡ (collect_of image.old s n).answer) × (image.new ≡ (collect_of image.old s n).image) }
{
    if !chip::fits(&image[..], s, n) {
        return Err(Refusal::BadGeometry);
    }
    let mut freed: usize = 0;
    for r in 0..n {
        let a = r * s;
        let e = a + s;
        let verdict = sweeping::judge(r, &image[a..e]);
        match verdict {
            Verdict::Stands => {}
            Verdict::Erase => {
                chip::erase_region(image, s, n, r);
                freed += s;
            }
            Verdict::Bad { fault, place: _ } => return Err(fault.into()),
        }
    }
    Ok(Success::Freed(freed))
}
