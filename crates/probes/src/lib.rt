// The probes of a walk: which are on which node, and what they show once a node has been worked.
#![tactic(auto)]

ghost use Rattle.std.specs.Prelude.{◌≡◌, List, ℕ, ◌+◌, ◌-◌, ◌/◌, ◌≤◌, ◌<◌, eqb, length, get_or, set};
ghost use Rattle.word.specs.Choice.{pick};
ghost use Rattle.word.specs.Limits.{most_nodes, most_probes};
ghost use Rattle.calls.specs.Probes.{noted, zip_with};
ghost use Rattle.calls.specs.Probed.{probes_of};
ghost use Rattle.probes.specs.Marks.{mark_of, count_at, row_at, Clear, Enters, entered, Probing, Marked, MarksOf, Shows};

use word::limits::{BEAM, NODES, PROBES};

// A row: its count of probes, and two numbers for each, its place in the list and its output.
const ROW: usize = 1 + 2 * PROBES;

// A mark for each node, its first probe, and a row for each probe. Each is a byte: every call clears them, and a mark of 0
// is none. One array, of whose bytes `Marked` and `Clear` speak.
pub const MARKS: usize = NODES + ROW * PROBES;

// The first probe on a node: the one that is marked, or else k.
fn first_on(marks: &[u8; MARKS], node: usize, k: usize) -> usize
    requires { (node < most_nodes) × (mark_of marks.now node ≤ most_probes) }
    ensures { result ≡ pick (eqb (mark_of marks.now node) 0) k (mark_of marks.now node - 1) }
{
    let mark = marks[node] as usize;
    if mark == 0 {
        return k;
    }
    mark - 1
}

// How many probes the row of probe f has.
fn count_of(marks: &[u8; MARKS], f: usize) -> usize
    requires { (f < most_probes) × (count_at marks.now (row_at f) ≤ most_probes) }
    ensures { result ≡ count_at marks.now (row_at f) }
{
    marks[NODES + ROW * f] as usize
}

// Probe k and its output, one entry more in the row of probe f, the first on the node, that has n.
fn enter(marks: &mut [u8; MARKS], node: usize, f: usize, n: usize, k: usize, output: u32)
    requires { Enters node f n k output }
    ensures { marks.new ≡ entered marks.old node f n k output }
{
    let at = NODES + ROW * f;
    let e = at + 1 + 2 * n;
    marks[node] = (f + 1) as u8;
    marks[e] = k as u8;
    marks[e + 1] = output as u8;
    marks[at] = (n + 1) as u8;
}

// The row of each node that has a probe, in marks that are clear: its probes in the order named.
pub fn mark(probes: &[u32], marks: &mut [u8; MARKS])
    requires probing { Probing probes.now (length probes.now / 2) }
    requires clear { Clear marks.old }
    ensures { Marked probes.now (length probes.now / 2) marks.new }
{
    let count = probes.len() / 2;
    for k in 0..count {
        let node = probes[2 * k] as usize;
        let f = first_on(marks, node, k);
        let n = count_of(marks, f);
        enter(marks, node, f, n, k, probes[2 * k + 1]);
    }
}

// The probe of the entry at e shows its output.
fn show(marks: &[u8; MARKS], e: usize, y: &[u32; BEAM], latest: &mut [u32])
    requires { Shows marks.now e (length latest.old) }
    ensures { latest.new ≡ set latest.old (get_or marks.now e 0) (get_or y.now (get_or marks.now (e + 1) 0) 0) }
{
    latest[marks[e] as usize] = y[marks[e + 1] as usize];
}

// Each probe on a node that has been worked shows its output; the others show what they did.
pub fn note(marks: &[u8; MARKS], node: usize, y: [u32; BEAM], latest: &mut [u32])
    requires marks_of { MarksOf (length latest.old) marks.now }
    requires node_lt_most_nodes { node < most_nodes }
    ensures { (xs : List ℕ) → Probing xs (length latest.old) → Marked xs (length latest.old) marks.now
        → latest.new ≡ zip_with (noted node y) (probes_of xs) latest.old }
{
    let mark = marks[node] as usize;
    if mark == 0 {
        return;
    }
    let count = count_of(marks, mark - 1);
    let at = NODES + ROW * (mark - 1);
    for i in 0..count {
        show(marks, at + 1 + 2 * i, &y, latest);
    }
}
