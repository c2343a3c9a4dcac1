// What the edits ask of the bytes to be written: 22, 23 and the grid, and the bits of a transition.
ghost use Rattle.std.specs.Prelude.{◌≡◌, true};
ghost use Rattle.std.specs.Float.{binary32};
ghost use Rattle.std.specs.Float.Ieee.{of_bits};
ghost use Rattle.grid.specs.Grid.{on_grid};
ghost use Rattle.laying.specs.Allowed.{permitted, may_link, linkable, transition_word};
ghost use Rattle.laying.specs.Area.{area_allowed};

// 22
pub fn is_permitted(old: u32, new: u32) -> bool
    ensures { result ≡ permitted old new }
{
    if 22 < old {
        return false;
    }
    if 22 < new {
        return false;
    }
    let w = mesh::is_walkable(new);
    if mesh::is_walkable(old) {
        return w;
    }
    !w
}

// 23, of a transition's bits.
pub(crate) fn is_linkable(word: u32) -> bool
    ensures { result ≡ linkable word }
{
    if word <= 63 {
        return true;
    }
    word == wire::NONE
}

// 23
pub fn may_link(t: i32) -> bool
    ensures { result ≡ may_link t }
{
    if t < -1 {
        return false;
    }
    t < 64
}

// The 32 bits of a transition: those of a negative number count down from all ones, which is -1.
pub fn transition_word(t: i32) -> u32
    ensures { result ≡ transition_word t }
{
    if t < 0 {
        let below = -1 - t;
        return wire::NONE - below as u32;
    }
    t as u32
}

// The grid, of a float's bits.
pub(crate) fn is_on_grid(bits: u32) -> bool
    ensures { result ≡ on_grid (of_bits binary32 bits) }
{
    grid::size_of(bits).is_some()
}

// What 27 asks of the bytes to be written.
pub(crate) fn is_allowed(tag: u8, old: u32, new: u32) -> bool
    ensures { result ≡ area_allowed tag old new }
{
    if tag == 1 {
        return is_permitted(old, new);
    }
    if tag == 2 {
        return is_linkable(new);
    }
    if tag == 3 {
        return is_on_grid(new);
    }
    false
}
