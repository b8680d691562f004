//! Questions: over which records sides are compared, and by which relation.

ghost use Rattle.std.specs.Prelude.{◌≡◌};
ghost use Rattle.scf_c.specs.Endings.{IsOneOrNone};
ghost use Rattle.scf_c.specs.Questions.{
  IsAsked,
  IsOver,
  IsRange,
  IsSideAsked,
  relation_number,
};

use crate::layout::{Question, SideInput, Table};
use crate::side::{SideKind, kind_of};
use crate::tables::{architecture_of, are_meant};
use scf_profile::{Relation, Scope};
use scf_tool::has_record;

/// Over which records sides are compared.
#[derive(Clone, Copy)]
pub(crate) enum Over {
    /// All, or those of an architecture with a number of a range, at once.
    AtOnce(Scope),
    /// Those of each architecture that has a table.
    EachArchitecture,
    /// Those of each syscall of each table.
    EachCall,
}

/// What a question asks for.
#[derive(Clone, Copy)]
pub(crate) struct Asked {
    pub over: Over,
    pub relation: Relation,
    pub left: SideKind,
    pub right: SideKind,
}

/// The records of a question's architecture with a number of its range, if there is one.
fn range_of(question: &Question) -> Option<Scope>
    ensures { IsOneOrNone (IsRange question.now) result }
{
    let scope = Scope::Numbers {
        architecture: architecture_of(question.architecture)?,
        first: question.first,
        last: question.last,
    };
    if has_record(scope) { Some(scope) } else { None }
}

fn over_of(question: &Question) -> Option<Over>
    ensures { IsOneOrNone (IsOver question.now) result }
{
    match question.scope {
        0 => Some(Over::AtOnce(Scope::All)),
        1 => match range_of(question) {
            Some(scope) => Some(Over::AtOnce(scope)),
            None => None,
        },
        2 => Some(Over::EachArchitecture),
        3 => Some(Over::EachCall),
        _ => None,
    }
}

/// The relation with this number.
fn relation_of(number: u32) -> Option<Relation>
    ensures { IsOneOrNone (λ relation. number ≡ relation_number relation) result }
{
    match number {
        0 => Some(Relation::Same),
        1 => Some(Relation::NoMore),
        2 => Some(Relation::NoLess),
        3 => Some(Relation::SameDisposition),
        _ => None,
    }
}

/// What the numbers of a question, of both sides and of tables ask for, if each has a meaning.
pub(crate) fn asked_of<'a>(
    question: &Question,
    left: &SideInput<'a>,
    right: &SideInput<'a>,
    tables: &[Table],
) -> Option<Asked>
    ensures { IsOneOrNone (IsAsked question.now left.now right.now tables.now) result }
{
    let [first, second] = question.reserved;
    if question.unused != 0 || first != 0 || second != 0 || !are_meant(tables) {
        return None;
    }
    Some(Asked {
        over: over_of(question)?,
        relation: relation_of(question.relation)?,
        left: kind_of(left, tables)?,
        right: kind_of(right, tables)?,
    })
}

/// What the numbers ask for of a side by itself, whose relation is that of the same answers.
pub(crate) fn asked_of_side<'a>(
    question: &Question,
    side: &SideInput<'a>,
    tables: &[Table],
) -> Option<Asked>
    ensures { IsOneOrNone (IsSideAsked question.now side.now tables.now) result }
{
    if question.relation != 0 {
        return None;
    }
    asked_of(question, side, side, tables)
}
