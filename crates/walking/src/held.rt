// For callers that hold the sheet and the table to what the calls before have left.
// The table's lists come apart: calls write to some and read others, and a struct that lends each again is no plainer.
ghost use Rattle.std.specs.Prelude.{◌≡◌, ◌+◌, ◌≤◌, ◌<◌, length};
ghost use Rattle.table.specs.Tables.{table};
ghost use Rattle.records.specs.Records.{size_of};
ghost use Rattle.wording.specs.Lines.{Room};
ghost use Rattle.replies.specs.Memory.{Ready};
ghost use Rattle.house.specs.Memory.{FedWalk};
ghost use Rattle.walking.specs.Answering.{PastReply, Ahead, Ended};

use house::held::{front, further};
use house::{Found, Walked};
use records::held::{record_in, size_of};
use replies::Replied;
use replies::held::reply;
use wording::held::refused;

// After a reply: past the record, unless it ends the program.
fn past_reply(w: Walked, kind: u32, answer: Replied) -> Walked
    requires { (kind ≤ 12) × (w.at + size_of kind < 18446744073709551616) }
    ensures { PastReply w (size_of kind) answer result }
{
    if answer.ends {
        return Walked {
            used: answer.used,
            ends: true,
            ..w
        };
    }
    let size = size_of(kind);
    Walked {
        at: w.at + size,
        offset: further(w.offset, size),
        used: answer.used,
        ends: false,
    }
}

// What stands ahead in a piece: nothing is, once the program ends, or there is no room for a line more.
fn ahead(input: &[u8], w: Walked) -> Found
    ensures { Ahead input.now w result }
{
    if w.ends {
        return Found::Short;
    }
    if 40000 < w.used {
        return Found::Short;
    }
    let at = w.at;
    if input.len() <= at {
        return Found::Short;
    }
    front(&input[at..])
}

// A byte that is no kind is refused.
fn end(w: Walked, found: Found, out: &mut [u8]) -> Walked
    requires { found ≡ Found.Unknown → Room w.used out.old }
    ensures { Ended w found out.old result out.new }
{
    let Found::Unknown = found else {
        return w;
    };
    let used = refused(out, w.used, 10, w.offset);
    Walked {
        used,
        ends: true,
        ..w
    }
}

// The records of a piece, up to the program's end, what is not whole, or as many lines as leave room for one more.
pub fn feed_walk(
    input: &[u8],
    offset: u64,
    sheet: &[u32],
    head: &mut [u32],
    states: &mut [u32],
    cursors: &mut [u32],
    matched: &mut [u32],
    transitions: &mut [u32],
    items: &mut [u32],
    out: &mut [u8],
) -> Walked
    requires { Ready sheet.now (table head.old states.old cursors.old matched.old transitions.old) items.old × (length out.old ≡ 131072) }
    ensures { FedWalk input.now offset sheet.now (table head.old states.old cursors.old matched.old transitions.old) items.old out.old result out.new (table head.new states.new cursors.new matched.new transitions.new) items.new }
{
    let mut w = Walked {
        at: 0,
        offset,
        used: 0,
        ends: false,
    };
    let mut found = ahead(input, w);
    // What a record leads to says whether another stands ahead: nothing is counted.
    while let Found::Whole = found {
        let at = w.at;
        let item = record_in(&input[at..]);
        let answer = reply(
            sheet,
            head,
            states,
            cursors,
            matched,
            transitions,
            items,
            item,
            out,
            w.used,
            w.offset,
        );
        w = past_reply(w, item.kind, answer);
        found = ahead(input, w);
    }
    end(w, found, out)
}
