// Lists the records of a chip: standard input is its image behind a line with S and N, standard output the list. It only moves bytes.

#![tactic(auto)]

ghost use Rattle.std.specs.Prelude.{◌≡◌, ◌≤◌, length};
ghost use Rattle.io.specs.Counts.{IsPrefixLen};
ghost use Rattle.listing.specs.Listing.{most_read, most_text};

fn main() {
    // An image of 65,536 bytes and its first line, and bytes that are too many. An input that fills the room is refused, whatever follows.
    let mut input = room::<65600>();
    // The text of any input.
    let mut text = room::<180224>();
    let len = read_in(&mut input);
    show(&input[..len], &mut text);
}

// Room for so many bytes.
fn room<const N: usize>() -> [u8; N]
    ensures { N ≡ length result }
{
    [0; N]
}

// A shorter buffer would cut off an input that is to be listed, and another would be listed in its place, or none.
fn read_in(input: &mut [u8]) -> usize
    requires { most_read ≤ length input.old }
    ensures { IsPrefixLen result input.new }
{
    io::read_full(0, input)
}

// The text in one piece. A shorter buffer would have none.
fn show(input: &[u8], text: &mut [u8])
    requires { most_text ≤ length text.old }
{
    let len = listing::list(input, text);
    io::write_all(1, &text[..len]);
}
