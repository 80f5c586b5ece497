// How designs break the rules.
ghost use Rattle.std.specs.Prelude.{◌≡◌};
ghost use Rattle.ace_advice.specs.Designs.{snoop_design, read_design, write_design, cache_design, order_design, in_a_design};

/// How designs break the rule, of 34 to 40.
fn order_design(rule: u8) -> &'static str
    ensures { result.now ≡ order_design rule }
{
    match rule {
        34 => "A bridge answers barriers by itself once the older writes have left it. Beyond it
                 they can still be overtaken, and a flag is seen before the data that it announces.",
        35 => "Requests are sorted into a queue for each bank before the barrier is looked at,
                 and a younger read in another queue goes first.",
        36 => "A distributor of messages drops one under back-pressure, sends it back to its
                 sender, or lets a Sync of one master overtake another's invalidation. Or it
                 arbitrates for each snoop anew, and something else comes between the two parts of
                 a message.",
        37 => "The message is answered as soon as it is queued. Its sender goes on and takes an
                 invalidation for done that has not reached the other cores.",
        38 => "The counter of Syncs is off by one after two come in a row, and a completion too
                 many ends a later Sync of another core early.",
        39 => "The collector counts completions and does not remember from which port they came:
                 two of one port stand for one of each. The page is then reused while a core still
                 has the old translation.",
        40 => "A driver of a test bench drops an operation, or notes two in the wrong order, and
                 the scoreboard compares with the wrong ones ever after.",
        _ => "",
    }
}

/// How designs break the rule, of 29 to 40.
fn cache_design(rule: u8) -> &'static str
    ensures { result.now ≡ cache_design rule }
{
    match rule {
        29 => "A cache makes room by dropping a way whose dirty bit has not been written yet, and
                 a store is lost. Or it turns a shared line unique by itself, as the tag of the
                 last owner was left in place.",
        30 => "The tag lookup of a load and the invalidation by a snoop meet in one cycle, and
                 the load takes the way that has just been given up.",
        31 => "A store waits in the store buffer and is not forwarded to a younger load; or a
                 late fill writes over it.",
        32 => "A store hits on a line in SharedDirty, as dirty is taken for writable: the other
                 sharers keep the old data. Or it goes into a line whose WriteBack has already
                 taken its data, and is lost with it.",
        33 => "The local monitor is not cleared when a snoop takes the line, or not by the
                 exclusive store itself: an increment is lost, or one load serves two stores.",
        _ => order_design(rule),
    }
}

/// How designs break the rule, of 24 to 40.
fn write_design(rule: u8) -> &'static str
    ensures { result.now ≡ write_design rule }
{
    match rule {
        24 => "A write goes to memory before the last snoop is answered, and the dirty line that
                 this answer brings is then written over it. Or a WriteBack in a side queue lands
                 after newer data that are on their way.",
        25 => "A partial write is merged into old memory though a snoop brought the line dirty:
                 the bytes that it did not write are lost. Or a read-modify-write for ECC takes the
                 strobes of the next beat.",
        26 => "A buffer answers early, while others can still read the old line; or the response
                 comes back under the identifier of another write.",
        27 => "As with RACK, a pulse is doubled or comes early, and a snoop meets a line that is
                 still on its way out.",
        28 => "The tag is not written when a WriteBack ends, and the cache goes on hitting on a
                 line that it no longer owns. Or a WriteClean of a line that is shared by now ends
                 as unique.",
        _ => cache_design(rule),
    }
}

/// How designs break the rule, of 18 to 40.
fn read_design(rule: u8) -> &'static str
    ensures { result.now ≡ read_design rule }
{
    match rule {
        18 => "Memory is read ahead of the snoops to save time, and the early data are sent
                 before the last cache has answered. Or a cache passes a dirty line on for a
                 ReadClean, and the interconnect, which should have written it to memory, drops it.",
        19 => "The interconnect latches the bits of the first answer and forgets to merge in
                 those of the second: the requester takes the line as unique while another cache
                 still has it.",
        20 => "The speculative read of memory wins against the data of a snoop, and the requester
                 gets what memory had before. Or the source of a burst is switched in the middle,
                 as a write to the line lands: half old, half new.",
        21 => "A monitor that compares a part of the address, or forgets to end the other ports'
                 registrations, tells two masters that their exclusive stores passed: both hold the
                 lock.",
        22 => "RACK is a pulse without a handshake. A register slice or a clock crossing that
                 widens it gives two, and the interconnect sets a line free before its transaction
                 has ended.",
        23 => "A CleanUnique waits, a snoop takes the line away, and the cache still goes to
                 unique when the response comes: it owns data that have been stored to elsewhere.
                 Or PassDirty is overlooked, and the line is dropped later as if it were clean.",
        _ => write_design(rule),
    }
}

/// How designs break the rule, of 11 to 40.
fn snoop_design(rule: u8) -> &'static str
    ensures { result.now ≡ snoop_design rule }
{
    match rule {
        11 => "The data queue of the write channel lost its place after a stalled AW, and every
                 burst from then on goes to its neighbour. Or the eviction buffer was filled before
                 the last store had reached the data array, and old data are written back.",
        12 => "The line is set free at the last transfer and not at RACK. The next transaction
                 snoops the requester while the data of the first are still on their way to it,
                 finds nothing, and there are two owners.",
        13 => "A snoop is replayed after a retry, or sent from a snoop filter entry of a
                 transaction that has ended. Or it overtakes the response to a WriteBack, and the
                 cache answers for a line that it is just letting go.",
        14 => "A queue of answers repeats its last entry after a stall, or a reset that reached
                 only one side of a clock crossing leaves one in it. From then on every answer
                 belongs to the snoop before.",
        15 => "The tag is read, and a store makes the line dirty before the answer goes out: it
                 says clean, and gives the line up. Nobody has the store any more. Or the cache
                 keeps the line shared and does not say so.",
        16 => "The snoop hits the line in the eviction buffer and takes the dirty data along, and
                 the WriteBack goes on all the same. Its data reach memory after those of the new
                 owner, who has stored and written back meanwhile.",
        17 => "The answer comes from the tags, and the data are read later, after a store of the
                 core or after the way was filled anew. Or the beats of two answers are mixed where
                 they share one buffer.",
        _ => read_design(rule),
    }
}

/// How designs break the rule. Empty where there is no such rule.
///
/// Each line but the first is indented by 17 columns, as the text stands beside a label.
pub fn in_a_design(rule: u8) -> &'static str
    ensures { result.now ≡ in_a_design rule }
{
    match rule {
        1 => "A snoop filter keeps one presence bit for each port with a cache, and its index is
                 taken for the number of the port: an I/O master is snooped, which can never
                 answer. Or a monitor is bound to the wrong interface.",
        2 => "AxSNOOP comes from the cache and AxDOMAIN from the page table, by two paths: after
                 a change of the page attributes they no longer fit together. On the way back, an
                 error from a hole in the address map reaches a cache that was never made for one.",
        3 => "A request carries the address of the critical word, and a comparator somewhere
                 looks at all of its bits: two requests of one line pass for two lines, and neither
                 waits for the other.",
        4 => "An identifier goes back to the free list at the last transfer and not at the
                 acknowledge, or at the first of two responses. The next response then lands in the
                 wrong miss register.",
        5 => "A prefetch and a demand miss for one line sit in two miss registers that do not
                 see each other; or the line is fetched again while its WriteBack is still on the
                 way, and the fetch is answered with the old memory.",
        6 => "An eviction looks at the tag, waits for the AW channel, and does not look again:
                 meanwhile a snoop has taken the line, and the WriteBack puts old data over those
                 of the new owner.",
        7 => "The lock bit comes from the instruction and the kind from the cache: an exclusive
                 load that a prefetch for stores has turned into a ReadUnique still carries it.",
        8 => "A page is mapped twice with different attributes: one mapping goes to memory past
                 the caches, and reads what the other has not written yet.",
        9 => "A bridge pairs the halves of barriers by identifier or by arrival, so that a
                 memory barrier on one channel meets a synchronisation barrier on the other. A
                 second Sync is sent before the first has been completed, and one completion ends
                 both.",
        10 => "The write buffer and the eviction engine share the channel. The WriteUnique waits
                 for a snoop, the snooped line for its WriteBack, and the WriteBack stands behind
                 the WriteUnique: deadlock.",
        _ => snoop_design(rule),
    }
}
