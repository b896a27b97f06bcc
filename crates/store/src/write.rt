// Append, the two removals, and initialise.
ghost use Rattle.std.specs.Prelude.{◌≡◌, true, ◌≤◌, length};
ghost use Rattle.chip.specs.Geometry.{Fits};
ghost use Rattle.format.specs.declared.Removal.{Removal};
ghost use Rattle.plans.specs.Writes.{listed, edited, applied};
ghost use Rattle.plans.specs.Fits.{edit_fits, edits_fit};
ghost use Rattle.store.specs.Write.{end_of, carried, append_of, remove_of, initialise_of};

use chip::{Chip, Written};
use format::{Record, Removal};
use plans::{Answer, Edit, Edits, Plan, Then};
use refusals::Refusal;

// One edit of an image.
fn make_edit(image: &mut [u8], s: usize, n: usize, edit: Edit, key: u64, value: &[u8])
    requires { Fits image.old s n × (length value.now ≤ 4079) × (edit_fits s n (length value.now) edit ≡ true) }
    ensures { image.new ≡ edited s key value.now edit image.old }
{
    match edit {
        Edit::Lay { region, at } => {
            placing::land_record::<Written>(image, region * s + at, key, value);
        }
        Edit::Kill { how, region, rec } => {
            placing::land_kill::<Written>(image, region * s + rec.at, how, rec);
        }
        Edit::Erase { region } => {
            chip::erase_region(image, s, n, region);
        }
    }
}

// The edits of a list, one after the other.
fn make_edits(image: &mut [u8], s: usize, n: usize, edits: Edits, key: u64, value: &[u8])
    requires { Fits image.old s n × (length value.now ≤ 4079) × (edits_fit s n (length value.now) edits ≡ true) }
    ensures { image.new ≡ applied s key value.now (listed edits) image.old }
{
    let mut left = edits;
    while let Some(edit) = plans::first_of(left) {
        make_edit(image, s, n, edit, key, value);
        left = plans::rest_of(left);
    }
}

// The answer of a plan that ends with one, as those of append and the removals do: BadCall does not come.
fn end_of(next: Then) -> Answer
    ensures { result ≡ end_of next }
{
    let Then::Ends(answer) = next else {
        return Err(Refusal::BadCall);
    };
    answer
}

// A plan carried out.
fn carry_out(image: &mut [u8], s: usize, n: usize, plan: Plan, key: u64, value: &[u8]) -> Answer
    requires { Fits image.old s n × (length value.now ≤ 4079) × (edits_fit s n (length value.now) plan.edits ≡ true) }
    ensures { (result ≡ (carried s key value.now image.old plan).answer) × (image.new ≡ (carried s key value.now image.old plan).image) }
{
    let edits = plan.edits;
    let next = plan.next;
    make_edits(image, s, n, edits, key, value);
    end_of(next)
}

// R5.3, R5.4: append.
pub fn append_key(image: &mut [u8], s: usize, n: usize, key: u64, value: &[u8]) -> Answer
    ensures { (result ≡ (append_of image.old s n key value.now).answer) × (image.new ≡ (append_of image.old s n key value.now).image) }
{
    refusals::first_refusal(&image[..], s, n, key, value.len())?;
    let need = Some(value.len() + Record::LEAST);
    let chip = Chip {
        image: &image[..],
        s,
        n,
    };
    let looked = lookup::look_up(&chip, key, need);
    let plan = planning::append_plan(looked);
    carry_out(image, s, n, plan, key, value)
}

// R5.5, R5.6: either removal.
fn remove(image: &mut [u8], s: usize, n: usize, key: u64, how: Removal) -> Answer
    ensures { (result ≡ (remove_of how image.old s n key).answer) × (image.new ≡ (remove_of how image.old s n key).image) }
{
    let hit = lookup::find_key(&image[..], s, n, key)?;
    let plan = planning::remove_plan(how, Ok(hit));
    carry_out(image, s, n, plan, key, b"")
}

// R5.5: invalidate.
pub fn invalidate_key(image: &mut [u8], s: usize, n: usize, key: u64) -> Answer
    ensures { (result ≡ (remove_of Removal.Invalidate image.old s n key).answer) × (image.new ≡ (remove_of Removal.Invalidate image.old s n key).image) }
{
    remove(image, s, n, key, Removal::Invalidate)
}

// R5.6: zeroise.
pub fn zeroise_key(image: &mut [u8], s: usize, n: usize, key: u64) -> Answer
    ensures { (result ≡ (remove_of Removal.Zeroise image.old s n key).answer) × (image.new ≡ (remove_of Removal.Zeroise image.old s n key).image) }
{
    remove(image, s, n, key, Removal::Zeroise)
}

// R5.9: initialise, with the main key.
pub fn initialise(image: &mut [u8], s: usize, n: usize, key: u64) -> Answer
    ensures { (result ≡ (initialise_of image.old s n key).answer) × (image.new ≡ (initialise_of image.old s n key).image) }
{
    let mut nothing: [u8; 0] = [];
    let answer = crate::get_key(&image[..], s, n, key, &mut nothing);
    if !plans::starts_anew(answer) {
        return answer;
    }
    chip::erase(image);
    append_key(image, s, n, key, b"")
}
