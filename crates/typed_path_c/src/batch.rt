//! Joins of many names onto one base, by the rule of a checked join or of a portable one.

ghost use Rattle.std.specs.Prelude.{◌≡◌, ◌≤◌, ◌<◌, ◌+◌, ◌++◌, ◌⊎◌, take, drop, length, IfOk, IfErr, None};
ghost use Rattle.typed_path.specs.changes.Push as push_spec;
ghost use Rattle.typed_path.specs.changes.{join_refusal};
ghost use Rattle.typed_path.specs.typed.{typed_dialect};
ghost use Rattle.typed_path.specs.views.TypedViews.{owned_bytes, typed_bytes};
ghost use Rattle.typed_path_c.specs.Answers.{out_of_memory, too_small};
ghost use Rattle.typed_path_c.specs.declared.batch.Rule.TheVariants as rules;
ghost use Rattle.typed_path_c.specs.Batch.{name_answer, name_status, refused_by, IsBatch, Batches};

use crate::status::{BAD_DIALECT, BAD_ENDS, DONE, OUT_OF_MEMORY, Refusal, TOO_SMALL, path_in};
use std::alloc::Global;
use typed_path::{JoinError, TypedPath, TypedPathBuf};

/// What refuses a name: a checked join, or a portable one.
#[derive(Clone, Copy)]
enum Rule {
    Checked,
    Portable,
}

/// The index at which the answer to a name ends, and the status of the name.
#[derive(Clone, Copy)]
struct Joined {
    end: usize,
    status: u32,
}

/// Puts the checked joins of names onto `base` one after the other, and sets `done` to how many
/// names were answered; the status says why no more were. `ends` has the indices at which the names
/// end, and `out_ends` takes those of the answers. A name that is refused has an empty answer, and
/// its status.
#[unsafe(no_mangle)]
pub extern "C" fn typed_path_join_checked_batch(
    alloc: Global,
    dialect: u32,
    base: &[u8],
    names: &[u8],
    ends: &[usize],
    out: &mut [u8],
    out_ends: &mut [usize],
    statuses: &mut [u32],
    done: &mut usize,
) -> u32
    ensures { Batches rules.Checked dialect base.now names.now ends.now out.old out.new out_ends.old out_ends.new
        statuses.old statuses.new done.new result }
{
    join_batch(
        alloc,
        Rule::Checked,
        dialect,
        base,
        names,
        ends,
        out,
        out_ends,
        statuses,
        done,
    )
}

/// Does what [`typed_path_join_checked_batch`] does, by portable joins.
#[unsafe(no_mangle)]
pub extern "C" fn typed_path_join_portable_batch(
    alloc: Global,
    dialect: u32,
    base: &[u8],
    names: &[u8],
    ends: &[usize],
    out: &mut [u8],
    out_ends: &mut [usize],
    statuses: &mut [u32],
    done: &mut usize,
) -> u32
    ensures { Batches rules.Portable dialect base.now names.now ends.now out.old out.new out_ends.old out_ends.new
        statuses.old statuses.new done.new result }
{
    join_batch(
        alloc,
        Rule::Portable,
        dialect,
        base,
        names,
        ends,
        out,
        out_ends,
        statuses,
        done,
    )
}

/// Does what [`typed_path_join_checked_batch`] does, by the joins of `rule`.
fn join_batch(
    alloc: Global,
    rule: Rule,
    dialect: u32,
    base: &[u8],
    names: &[u8],
    ends: &[usize],
    out: &mut [u8],
    out_ends: &mut [usize],
    statuses: &mut [u32],
    done: &mut usize,
) -> u32
    ensures { Batches rule dialect base.now names.now ends.now out.old out.new out_ends.old out_ends.new
        statuses.old statuses.new done.new result }
{
    *done = 0;
    let Some(base) = path_in(dialect, base) else {
        return BAD_DIALECT;
    };
    join_each(
        alloc, rule, base, names, ends, out, out_ends, statuses, done,
    )
}

/// Does what [`join_batch`] does, onto a path. `done` is 0 at first.
fn join_each(
    alloc: Global,
    rule: Rule,
    base: TypedPath<'_>,
    names: &[u8],
    ends: &[usize],
    out: &mut [u8],
    out_ends: &mut [usize],
    statuses: &mut [u32],
    done: &mut usize,
) -> u32
    requires { done.old ≡ 0 }
    ensures { IsBatch rule (typed_dialect base.entry) (typed_bytes base.entry) names.now ends.now
        out.old out.new out_ends.old out_ends.new statuses.old statuses.new done.new result }
{
    let mut start = 0;
    let mut at = 0;
    'names: while *done < ends.len() {
        let end = ends[*done];
        if end < start || names.len() < end {
            return BAD_ENDS;
        }
        if out_ends.len() <= *done || statuses.len() <= *done {
            return TOO_SMALL;
        }
        match join_one(alloc, rule, base, &names[start..end], out, at) {
            Ok(joined) => {
                out_ends[*done] = joined.end;
                statuses[*done] = joined.status;
                at = joined.end;
            }
            Err(status) => return status,
        }
        *done += 1;
        start = end;
    }
    DONE
}

/// Puts the join of one name onto `base` at `out[at..]`, or nothing if `rule` refuses the name.
/// `Err` has the status if allocation fails or the join does not fit; then `out` is unchanged.
fn join_one(
    alloc: Global,
    rule: Rule,
    base: TypedPath<'_>,
    name: &[u8],
    out: &mut [u8],
    at: usize,
) -> Result<Joined, u32>
    requires { at ≤ length out.old }
    ensures status { IfOk result (λ j. j.status ≡ name_status rule (typed_dialect base.entry) name.now) }
    ensures end { IfOk result (λ j. j.end
        ≡ at + length (name_answer rule (typed_dialect base.entry) (typed_bytes base.entry) name.now)) }
    ensures within { IfOk result (λ j. j.end ≤ length out.old) }
    ensures put { IfOk result (λ j. out.new ≡ take at out.old
        ++ name_answer rule (typed_dialect base.entry) (typed_bytes base.entry) name.now
        ++ drop j.end out.old) }
    ensures kept { IfErr result (λ _. out.new ≡ out.old) }
    ensures why { IfErr result (λ why.
        ((why ≡ out_of_memory) × (refused_by rule (typed_dialect base.entry) name.now ≡ None))
        ⊎ ((why ≡ too_small) × (length out.old
        < at + length (name_answer rule (typed_dialect base.entry) (typed_bytes base.entry) name.now)))) }
{
    match join_by(alloc, rule, base, name) {
        Ok(path) => {
            let answer = path.as_bytes();
            if out.len() - at < answer.len() {
                return Err(TOO_SMALL);
            }
            let end = at + answer.len();
            out[at..end].copy_from_slice(answer);
            Ok(Joined { end, status: DONE })
        }
        Err(JoinError::OutOfMemory) => Err(OUT_OF_MEMORY),
        Err(refusal) => Ok(Joined {
            end: at,
            status: refusal.status(),
        }),
    }
}

/// Returns `base` with `name` pushed onto it, unless `rule` refuses the name.
fn join_by(
    alloc: Global,
    rule: Rule,
    base: TypedPath<'_>,
    name: &[u8],
) -> Result<TypedPathBuf, JoinError>
    ensures refused { join_refusal result ≡ refused_by rule (typed_dialect base.entry) name.now }
    ensures joined { IfOk result (λ p. owned_bytes p
        ≡ push_spec.push (typed_dialect base.entry) (typed_bytes base.entry) name.now) }
{
    match rule {
        Rule::Checked => Ok(base.join_checked(alloc, name)?),
        Rule::Portable => base.join_portable(alloc, name),
    }
}
