// The floor's header, rules 1 to 6: its length, its first bytes, its counts, and where its tables lie.
#![tactic(auto)]

ghost use Rattle.std.specs.Prelude.{◌≡◌, ◌<◌, ◌≤◌, length};
ghost use Rattle.verdict.specs.Lowest.{first};
ghost use Rattle.verdict.specs.Verdict.{in_order};
ghost use Rattle.verdict.specs.Refusals.{verdict_of};
ghost use Rattle.tables.specs.Tables.{table_at, outside, shares, shares_earlier, outside_at, rule5, rule6};
ghost use Rattle.tables.specs.Header.{floor_tables, magic, wrong_length, starts_wrong, rule4, field_rules, header_verdict};

use tables::{Span, TABLES, span_at, table_at};
use verdict::{Refusal, Verdict, refuse_at, refuse_if};

const MAGIC: [u8; 8] = *b"BWM V1.0";

// A table that is not empty starts in the header, or ends past the file.
#[tactic(auto, unfolding(tables::specs::Tables::outside))]
fn is_outside(len: usize, s: Span) -> bool
    ensures { result ≡ outside 136 len s }
{
    s.start < s.stop && (s.start < 136 || len < s.stop)
}

// Some byte lies in both.
#[tactic(auto, unfolding(tables::specs::Tables::shares))]
fn share(s: Span, u: Span) -> bool
    ensures { result ≡ shares s u }
{
    s.start.max(u.start) < s.stop.min(u.stop)
}

#[tactic(auto, unfolding(tables::specs::Header::wrong_length))]
fn wrong_length(n: usize) -> bool
    ensures { result ≡ wrong_length n }
{
    n < 136 || 1048576 < n
}

fn starts_wrong(bytes: &[u8]) -> bool
    requires { 136 ≤ length bytes.now }
    ensures { result ≡ starts_wrong magic bytes.now }
{
    (0..MAGIC.len()).any(|k| bytes[k] != MAGIC[k])
}

// 4
#[tactic(auto, using(verdict::proofs::Results::here, verdict::proofs::Results::past), unfolding(tables::specs::Header::rule4, tables::specs::Header::limit))]
fn counts_verdict(bytes: &[u8]) -> Verdict
    requires { 136 ≤ length bytes.now }
    ensures { verdict_of result ≡ rule4 bytes.now }
{
    let faces = wire::u32_at(bytes, 80);
    refuse_if(4096 < wire::u32_at(bytes, 72), Refusal::Count, 72)?;
    refuse_if(4096 < faces, Refusal::Count, 80)?;
    refuse_if(8191 < wire::u32_at(bytes, 100), Refusal::Count, 100)?;
    refuse_if(faces < wire::u32_at(bytes, 112), Refusal::Count, 112)?;
    refuse_if(12288 < wire::u32_at(bytes, 120), Refusal::Count, 120)?;
    refuse_if(12288 < wire::u32_at(bytes, 128), Refusal::Count, 128)
}

// Table k lies outside the file.
fn outside_at(bytes: &[u8], k: usize) -> bool
    requires { (k < 9) × (136 ≤ length bytes.now) }
    ensures { result ≡ outside_at 136 floor_tables bytes.now k }
{
    is_outside(bytes.len(), span_at(bytes, k))
}

// The first table that lies outside the file.
fn first_outside(bytes: &[u8]) -> Option<usize>
    requires { 136 ≤ length bytes.now }
    ensures { result ≡ first 9 (outside_at 136 floor_tables bytes.now) }
{
    (0..TABLES).find(|k| outside_at(bytes, *k))
}

// Table k shares a byte with an earlier one.
fn shares_earlier(bytes: &[u8], k: usize) -> bool
    requires { (k < 9) × (136 ≤ length bytes.now) }
    ensures { result ≡ shares_earlier floor_tables bytes.now k }
{
    let own = span_at(bytes, k);
    (0..k).any(|j| share(own, span_at(bytes, j)))
}

// The first table that shares a byte with an earlier one.
fn first_sharing(bytes: &[u8]) -> Option<usize>
    requires { 136 ≤ length bytes.now }
    ensures { result ≡ first 9 (shares_earlier floor_tables bytes.now) }
{
    (0..TABLES).find(|k| shares_earlier(bytes, *k))
}

// The offset field of table k, and 0 for none.
fn offset_field(k: usize) -> usize
    ensures { result ≡ (table_at floor_tables k).offset }
{
    if k < TABLES { table_at(k).offset } else { 0 }
}

// 5
fn outside_verdict(bytes: &[u8]) -> Verdict
    requires { 136 ≤ length bytes.now }
    ensures { verdict_of result ≡ rule5 136 9 floor_tables bytes.now }
{
    let field = first_outside(bytes).map(offset_field);
    refuse_at(field, Refusal::TableOutside)
}

// 6
fn sharing_verdict(bytes: &[u8]) -> Verdict
    requires { 136 ≤ length bytes.now }
    ensures { verdict_of result ≡ rule6 9 floor_tables bytes.now }
{
    let field = first_sharing(bytes).map(offset_field);
    refuse_at(field, Refusal::TablesShare)
}

// Rules 2 to 6 of a file that is long enough.
#[tactic(auto, using(verdict::proofs::Results::here, verdict::proofs::Results::past, verdict::proofs::Results::last), unfolding(verdict::specs::Verdict::in_order, tables::specs::Header::field_rules, tables::specs::Header::rule2, tables::specs::Header::rule3))]
fn fields_verdict(bytes: &[u8]) -> Verdict
    requires { 136 ≤ length bytes.now }
    ensures { verdict_of result ≡ in_order (field_rules bytes.now) }
{
    refuse_if(starts_wrong(bytes), Refusal::FirstBytes, 0)?;
    refuse_if(wire::u32_at(bytes, 8) != 1, Refusal::WorldCoords, 8)?;
    counts_verdict(bytes)?;
    outside_verdict(bytes)?;
    sharing_verdict(bytes)
}

// Rules 1 to 6: the first that is broken, or none.
#[tactic(auto, using(verdict::proofs::Results::here, verdict::proofs::Results::past), unfolding(verdict::specs::Verdict::in_order, tables::specs::Header::header_verdict, tables::specs::Header::header_rules, tables::specs::Header::rule1, tables::specs::Header::wrong_length))]
pub fn header_verdict(bytes: &[u8]) -> Verdict
    ensures { verdict_of result ≡ header_verdict bytes.now }
{
    refuse_if(wrong_length(bytes.len()), Refusal::Length, 0)?;
    fields_verdict(bytes)
}
