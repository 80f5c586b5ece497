//! The tree by which the place of a line is found. Its slots are a list of links: first 1,024, of
//! which each leads to the place of the first line with its number, then sixteen for each place,
//! of which each leads to that of a line with its digit. From place to place a line's walk takes
//! four more bits of the line. The number and six digits make out a line, so that two lines part
//! within seven places, whatever they are; lines that begin at a multiple of 64 within five.

ghost use Rattle.std.specs.Prelude.{◌≡◌, length};
ghost use Rattle.ace_places.specs.Walks.{first_digits, first_slot, link_at, read_slot, slot_below, steps, walk};

/// What stands in no link: a slot with it leads nowhere. No place is as high.
pub const NOWHERE: u32 = u32::MAX;

/// How many slots there are before those of the places.
pub const ROOTS: usize = 1024;

/// How many slots each place has.
pub const FAN: usize = 16;

/// How many steps a walk takes at most: one for the number of the line, and one for each digit.
const STEPS: usize = 7;

/// What a slot says of a line.
#[derive(Clone, Copy)]
pub enum Look {
    /// It leads nowhere.
    Ends,
    /// It leads to the place of the line.
    IsHere(u32),
    /// It leads to the place of another line.
    LeadsTo(u32),
}

/// Where the walk of a line ends.
#[derive(Clone, Copy)]
pub enum End {
    /// At the place of the line.
    IsAt(u32),
    /// At the slot that would lead to the place of the line, if it had one.
    IsFree(usize),
}

/// The slot where the walk of the line begins: that of its number.
#[inline(always)]
fn first_slot(line: u32) -> usize
    ensures { result ≡ first_slot line }
{
    line as usize / 64 % 1024
}

/// The digits of the line, the next one lowest: the bits above its number, and then those below.
#[inline(always)]
fn first_digits(line: u32) -> u32
    ensures { result ≡ first_digits line }
{
    line / 65536 + line % 64 * 65536
}

/// The slot of the place for the next digit.
#[inline(always)]
fn slot_below(place: u32, digits: u32) -> usize
    ensures { result ≡ slot_below place digits }
{
    ROOTS + FAN * place as usize + digits as usize % FAN
}

/// The link at the slot.
#[inline(always)]
fn link_at(links: &[u32], slot: usize) -> u32
    ensures { result ≡ link_at links.now slot }
{
    match links.get(slot) {
        None => NOWHERE,
        Some(link) => *link,
    }
}

/// What the slot says of the line.
#[inline(always)]
fn read_slot(lines: &[u32], links: &[u32], line: u32, slot: usize) -> Look
    ensures { result ≡ read_slot lines.now (link_at links.now) line slot }
{
    let place = link_at(links, slot);
    match lines.get(place as usize) {
        None => Look::Ends,
        Some(it) => {
            if *it == line {
                Look::IsHere(place)
            } else {
                Look::LeadsTo(place)
            }
        }
    }
}

/// Where the walk of the line ends.
pub fn walk(lines: &[u32], links: &[u32], line: u32) -> End
    ensures { result ≡ walk lines.now (link_at links.now) line
        steps (first_slot line) (first_digits line) }
{
    let mut slot = first_slot(line);
    let mut digits = first_digits(line);
    for _step in 0..STEPS {
        match read_slot(lines, links, line, slot) {
            Look::Ends => return End::IsFree(slot),
            Look::IsHere(place) => return End::IsAt(place),
            Look::LeadsTo(place) => {
                slot = slot_below(place, digits);
                digits /= 16;
            }
        }
    }
    End::IsFree(slot)
}
