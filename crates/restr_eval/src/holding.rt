//! When a restriction holds.
ghost use Rattle.std.specs.Prelude.{◌≡◌, ◌≤◌, ◌+◌, length, map};
ghost use Rattle.std.specs.List.{list_any};
ghost use Rattle.restr_codec.specs.declared.restriction.SubTable.TheVariants.{Attachments, Recipients};
ghost use Rattle.restr_codec.specs.Forms.{restrs};
ghost use Rattle.restr_eval.specs.Eval.{all_hold, alone, asked, eval, rows_of, some_holds, subject};
ghost use Rattle.restr_eval.specs.Reached.{reached, reached_in_all, reached_in_some, steps_among, work};

use crate::leaves::{bits_pass, content_stands, pair_stands, property_stands, size_stands};
use crate::values::any_of;
use mapi_values::{Message, Part, Props, Table};
use pst_base::{Ledger, Steps};
use restr_codec::{Form, Restriction, SubTable};

/// The rows of a table, if there is one.
fn rows_of(table: &Option<Table>) -> &[(u32, Props)]
    ensures { result.now ≡ rows_of table.now }
{
    match table {
        Some(table) => table.rows(),
        None => &[],
    }
}

/// Whether a restriction holds of a message ([MS-OXCDATA] 2.12). A leaf doesn't hold where the property isn't there in its kind, or hasn't the length of its kind. Each restriction that is reached is one step.
pub fn eval<L: Ledger>(r: &Restriction, m: &Message, steps: &mut Steps<L>) -> bool
    ensures value { result ≡ eval r.now (subject m.now) }
    ensures steps { steps.new ≡ steps.old + reached r.now (subject m.now) }
    ensures most { steps.new ≤ steps.old + work r.now (length (rows_of m.now.recipients)) (length m.now.parts) }
{
    holds(
        r,
        &m.props,
        rows_of(&m.recipients),
        m.parts.as_slice(),
        steps,
    )
}

/// Whether a restriction holds of an object with these properties, recipients and attachments.
#[cycle(eval)]
fn holds<L: Ledger>(
    r: &Restriction,
    props: &Props,
    recipients: &[(u32, Props)],
    parts: &[Part],
    steps: &mut Steps<L>,
) -> bool
    ensures value { result ≡ eval r.now (asked props.now recipients.now parts.now) }
    ensures steps { steps.new ≡ steps.old + reached r.now (asked props.now recipients.now parts.now) }
{
    steps.tick();
    match &r.form {
        Form::And(inner) => all_hold(inner, props, recipients, parts, steps),
        Form::Or(inner) => some_holds(inner, props, recipients, parts, steps),
        Form::Not(inner) => !holds(inner, props, recipients, parts, steps),
        Form::Content {
            level,
            flags,
            value,
        } => content_stands(*level, *flags, value, props),
        Form::Property { relation, value } => property_stands(*relation, value, props),
        Form::CompareProps {
            relation,
            left,
            right,
        } => pair_stands(*relation, *left, *right, props),
        Form::BitMask { test, tag, mask } => bits_pass(*test, *tag, *mask, props),
        Form::Size {
            relation,
            tag,
            size,
        } => size_stands(*relation, *tag, *size, props),
        Form::Exist(tag) => any_of(*tag, props).is_some(),
        Form::SubObject { table, inner } => match table {
            SubTable::Recipients => holds_in_rows(inner, recipients, steps),
            SubTable::Attachments => holds_in_parts(inner, parts, steps),
        },
        Form::Comment { inner, .. } => match inner {
            Some(inner) => holds(inner, props, recipients, parts, steps),
            None => true,
        },
    }
}

/// Whether all restrictions hold.
#[cycle(eval)]
#[tactic(auto, using(restr_codec::proofs::Counts::count_at))]
fn all_hold<L: Ledger>(
    inner: &Vec<Restriction>,
    props: &Props,
    recipients: &[(u32, Props)],
    parts: &[Part],
    steps: &mut Steps<L>,
) -> bool
    ensures value { result ≡ all_hold (restrs inner.now.items) (asked props.now recipients.now parts.now) }
    ensures steps { steps.new ≡ steps.old + reached_in_all (restrs inner.now.items) (asked props.now recipients.now parts.now) }
{
    for one in inner {
        if !holds(one, props, recipients, parts, steps) {
            return false;
        }
    }
    true
}

/// Whether some restriction holds.
#[cycle(eval)]
#[tactic(auto, using(restr_codec::proofs::Counts::count_at))]
fn some_holds<L: Ledger>(
    inner: &Vec<Restriction>,
    props: &Props,
    recipients: &[(u32, Props)],
    parts: &[Part],
    steps: &mut Steps<L>,
) -> bool
    ensures value { result ≡ some_holds (restrs inner.now.items) (asked props.now recipients.now parts.now) }
    ensures steps { steps.new ≡ steps.old + reached_in_some (restrs inner.now.items) (asked props.now recipients.now parts.now) }
{
    for one in inner {
        if holds(one, props, recipients, parts, steps) {
            return true;
        }
    }
    false
}

/// Whether a restriction holds of some recipient.
#[cycle(eval)]
fn holds_in_rows<L: Ledger>(
    inner: &Restriction,
    rows: &[(u32, Props)],
    steps: &mut Steps<L>,
) -> bool
    ensures value { result ≡ list_any (λ props. eval inner.now (alone props)) (map (λ r. r.1) rows.now) }
    ensures steps { steps.new ≡ steps.old + steps_among (λ props. eval inner.now (alone props)) (λ props. reached inner.now (alone props)) (map (λ r. r.1) rows.now) }
{
    for row in rows {
        if holds(inner, &row.1, &[], &[], steps) {
            return true;
        }
    }
    false
}

/// Whether a restriction holds of some attachment.
#[cycle(eval)]
fn holds_in_parts<L: Ledger>(inner: &Restriction, parts: &[Part], steps: &mut Steps<L>) -> bool
    ensures value { result ≡ list_any (λ props. eval inner.now (alone props)) (map (λ part. part.props) parts.now) }
    ensures steps { steps.new ≡ steps.old + steps_among (λ props. eval inner.now (alone props)) (λ props. reached inner.now (alone props)) (map (λ part. part.props) parts.now) }
{
    for part in parts {
        if holds(inner, &part.props, &[], &[], steps) {
            return true;
        }
    }
    false
}
