// Keys, home regions and the order in which the regions of a key are looked at.

#![tactic(auto)]

ghost use Rattle.std.specs.Prelude.{◌≡◌, ◌<◌, get_or};
ghost use Rattle.probe.specs.Probe.{allowed_key, home, probe};

// Whether the number may be a key.
pub fn allowed_key(key: u64) -> bool
    ensures { result ≡ allowed_key key }
{
    key != 0 && key != 0xFFFF_FFFF_FFFF_FFFF
}

// The region where the search for a key begins.
pub fn get_region(key: u64, n: usize) -> usize
    requires { 0 < n }
    ensures { (result ≡ home key n) × (result < n) }
{
    (key % 65536) as usize % n
}

// The i-th region of the probe order from `home`, in closed form. Every step stays below n, so any n will do.
pub fn probe_at(home: usize, n: usize, i: usize) -> usize
    requires { (home < n) × (i < n) }
    ensures { (result ≡ get_or (probe n home) i 0) × (result < n) }
{
    // `home` regions lie below home, and so many above.
    let above = n - 1 - home;
    // How far from home the i-th is while both sides last.
    let d = (i + 1) / 2;
    if home < d {
        // The lower side ran out: the i before this one are regions 0 to i - 1.
        return i;
    }
    if above < d {
        // The upper side ran out: the i before this one are the i highest.
        return n - 1 - i;
    }
    if i % 2 == 0 { home - d } else { home + d }
}
