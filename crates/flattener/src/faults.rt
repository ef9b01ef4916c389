// The faults of a chart, class by class. Each record is handed on as the part of the chart that starts at its 8-byte boundary.
ghost use Rattle.std.specs.Prelude.{◌≡◌, suc, ◌+◌, ◌*◌, ◌≤◌, leb, length};
ghost use Rattle.chart.specs.Chart.{class_of, form_ok, forms_ok, key, length_ok, parent_ok, path, row_ok, rows_ok, state_ok, tree_ok};
ghost use Rattle.chart.specs.Faults.{answer_class};
ghost use Rattle.chart.specs.Held.{kind_at, kind_number, target_ok, within};
ghost use Rattle.chart.specs.Numbers.{levels, most_states};
ghost use Rattle.chart.specs.declared.read.Edition.TheVariants.{Plain};

use chart::faults::Fault;
use chart::read::{
    Edition, FLAG, INITIAL, INITIAL_ACTION, LEVELS, PARENT, RecordKind, contains, field, is_among,
    is_signal, parent_of, state_count, state_field,
};
use ground::blank;
use numbers::LONGEST_CHART;

// The fault of a chart, that of the lowest class. In line, so that each call has code for its own edition.
#[tactic(auto, unfolding(chart::specs::Chart::class_of))]
#[inline(always)]
pub fn check(e: Edition, chart: &[u8]) -> Result<(), Fault>
    ensures { answer_class result ≡ class_of e chart.now }
{
    if !length_ok(chart) {
        return Err(Fault::Length);
    }
    let n = state_count(chart);
    if !forms_ok(e, chart, n) {
        return Err(Fault::Form);
    }
    if !tree_ok(chart, n) {
        return Err(Fault::Tree);
    }
    if !rows_ok(e, chart, n) {
        return Err(Fault::Rows);
    }
    Ok(())
}

// Class 1: the length.
#[tactic(auto, unfolding(chart::specs::Chart::length_ok))]
fn length_ok(chart: &[u8]) -> bool
    ensures { result ≡ length_ok chart.now }
{
    let len = chart.len();
    len != 0 && len % 8 == 0 && len <= LONGEST_CHART
}

// The kind of record i of a chart with n states.
fn kind_at(n: usize, i: usize) -> RecordKind
    ensures { kind_number result ≡ kind_at n i }
{
    if i == 0 {
        RecordKind::Top
    } else if i <= n {
        RecordKind::State
    } else {
        RecordKind::Row
    }
}

// A record of a kind: its first byte and its filler bytes.
#[tactic(auto, unfolding(chart::specs::Chart::form_ok))]
fn form_ok(e: Edition, part: &[u8], kind: RecordKind) -> bool
    requires { 8 ≤ length part.now }
    ensures { result ≡ form_ok e (kind_number kind) part.now }
{
    part[0] == kind as u8
        && match kind {
            RecordKind::Top => blank(part, 3, 8),
            RecordKind::State => blank(part, 6, 8),
            RecordKind::Row => blank(part, e.row_filler(), 8),
        }
}

// Class 2: the records' kinds and filler bytes, and the number of states.
fn forms_ok(e: Edition, chart: &[u8], n: usize) -> bool
    ensures { result ≡ forms_ok e n chart.now }
{
    for i in 0..chart.len() / 8 {
        if !form_ok(e, &chart[8 * i..], kind_at(n, i)) {
            return false;
        }
    }
    1 <= n && n <= e.most_states()
}

// Whether p is lower than s and, if it is a state, has an initial target.
#[tactic(auto, unfolding(chart::specs::Chart::parent_ok))]
fn parent_ok(chart: &[u8], s: u8, p: u8) -> bool
    ensures { result ≡ parent_ok chart.now s p }
{
    p < s && (p == 0 || state_field(chart, p, INITIAL) != 0)
}

// Whether s lies at most six levels deep.
fn level_ok(chart: &[u8], s: u8) -> bool
    ensures { result ≡ leb (length (path (suc levels) chart.now s)) levels }
{
    let mut t = s;
    for k in 0..LEVELS {
        t = parent_of(chart, t);
    }
    t == 0
}

// Whether t is a proper descendant of s.
fn lies_within(chart: &[u8], n: usize, s: u8, t: u8) -> bool
    ensures { result ≡ within n chart.now s t }
{
    is_among(n, t) && contains(chart, s, parent_of(chart, t))
}

// The record of state s: its parent, its level, its initial transition.
#[tactic(auto, unfolding(chart::specs::Chart::state_ok))]
fn state_ok(chart: &[u8], n: usize, s: u8, part: &[u8]) -> bool
    requires { 8 ≤ length part.now }
    ensures { result ≡ state_ok n chart.now s part.now }
{
    if !parent_ok(chart, s, part[PARENT]) || !level_ok(chart, s) {
        return false;
    }
    if part[INITIAL] == 0 {
        return part[INITIAL_ACTION] == 0;
    }
    lies_within(chart, n, s, part[INITIAL])
}

// Class 3: the top initial transition and the states.
fn tree_ok(chart: &[u8], n: usize) -> bool
    requires { (8 * n + 8 ≤ length chart.now) × (n ≤ most_states Plain) }
    ensures { result ≡ tree_ok n chart.now }
{
    if !is_among(n, field(chart, 0, 1)) {
        return false;
    }
    for s in 1..n + 1 {
        if !state_ok(chart, n, s as u8, &chart[8 * s..]) {
            return false;
        }
    }
    true
}

// What rows ascend by.
fn key_of(part: &[u8]) -> usize
    requires { 8 ≤ length part.now }
    ensures { result ≡ key part.now }
{
    256 * usize::from(part[1]) + usize::from(part[2])
}

// A row's target by its kind, 0 internal or 1 a transition: a byte, since it may be neither.
fn target_ok(n: usize, kind: u8, t: u8) -> bool
    ensures { result ≡ target_ok n kind t }
{
    match kind {
        0 => t == 0,
        1 => is_among(n, t),
        _ => false,
    }
}

// A row, behind one with the key before.
#[tactic(auto, unfolding(chart::specs::Chart::row_ok))]
fn row_ok(e: Edition, n: usize, before: usize, part: &[u8]) -> bool
    requires { 8 ≤ length part.now }
    ensures { result ≡ row_ok e n before part.now }
{
    is_among(n, part[1])
        && is_signal(part[2])
        && target_ok(n, part[3], part[4])
        && part[FLAG] <= e.most_flag()
        && before < key_of(part)
}

// Class 4: the rows.
fn rows_ok(e: Edition, chart: &[u8], n: usize) -> bool
    requires { n ≤ most_states Plain }
    ensures { result ≡ rows_ok e n chart.now }
{
    let mut before = 0;
    for i in n + 1..chart.len() / 8 {
        let row = &chart[8 * i..];
        if !row_ok(e, n, before, row) {
            return false;
        }
        before = key_of(row);
    }
    true
}
