// The routines by their numbers, and their calls.
ghost use Rattle.routines.specs.Numbers.{IsNumbered};

use crate::answer::{Answer, Success};
use crate::ends::with_ends;
use accepts::{rule_ok, rules_ok};
use answers::answer;
use assign::assign;
use checker::check;
use checker::list::check_array;
use classes::Class;
use columns::{kept_columns, reader_class};
use items::{find, items_ok};
use keys::read_key;
use labels::Labels;
use puts::{put, put_class, put_count};
use reader::read;
use records::{nth_field, read_field, read_row};
use refusals::MOST_RULES;
use rules::{Rule, left_join, rule_at};
use solver::solve;
use std::array;
use stripping::strip;
use tokens::{read_class, read_count, read_name};
use wire::buffers::Buffers;
use wire::input::Numbers;
use writer::{write, write_labels};

// The routines, in the order of their numbers.
#[derive(Clone, Copy, Debug, PartialEq, Eq)]
pub enum Routine {
    Read,
    Write,
    WriteLabels,
    Find,
    ItemsOk,
    RulesOk,
    Solve,
    Check,
    CheckArray,
    Answer,
    Assign,
    HasRoom,
    FirstBad,
    LabelAt,
    RuleAt,
    LeftJoin,
    RuleOk,
    Strip,
    ReaderClass,
    KeptColumns,
    ReadName,
    ReadCount,
    ReadClass,
    ReadKey,
    ReadField,
    Put,
    PutCount,
    PutClass,
    ReadRow,
    NthField,
}

// No routine has the number.
#[derive(Clone, Copy, Debug, PartialEq, Eq)]
pub struct NoRoutine;

impl TryFrom<u64> for Routine {
    type Error = NoRoutine;

    ghost try_from_gives = { IsNumbered };

    fn try_from(number: u64) -> Result<Routine, NoRoutine> {
        match number {
            0 => Ok(Routine::Read),
            1 => Ok(Routine::Write),
            2 => Ok(Routine::WriteLabels),
            3 => Ok(Routine::Find),
            4 => Ok(Routine::ItemsOk),
            5 => Ok(Routine::RulesOk),
            6 => Ok(Routine::Solve),
            7 => Ok(Routine::Check),
            8 => Ok(Routine::CheckArray),
            9 => Ok(Routine::Answer),
            10 => Ok(Routine::Assign),
            11 => Ok(Routine::HasRoom),
            12 => Ok(Routine::FirstBad),
            13 => Ok(Routine::LabelAt),
            14 => Ok(Routine::RuleAt),
            15 => Ok(Routine::LeftJoin),
            16 => Ok(Routine::RuleOk),
            17 => Ok(Routine::Strip),
            18 => Ok(Routine::ReaderClass),
            19 => Ok(Routine::KeptColumns),
            20 => Ok(Routine::ReadName),
            21 => Ok(Routine::ReadCount),
            22 => Ok(Routine::ReadClass),
            23 => Ok(Routine::ReadKey),
            24 => Ok(Routine::ReadField),
            25 => Ok(Routine::Put),
            26 => Ok(Routine::PutCount),
            27 => Ok(Routine::PutClass),
            28 => Ok(Routine::ReadRow),
            29 => Ok(Routine::NthField),
            _ => Err(NoRoutine),
        }
    }
}

impl Routine {
    // Calls the routine with a call's numbers and buffers.
    pub fn call(self, n: Numbers, lent: &mut Buffers<'_>) -> Answer {
        let text = lent.text;
        let items = &mut *lent.items;
        let out = &mut *lent.out;
        let rules = &mut *lent.rules;
        let levels = &mut *lent.levels;
        let marks = &mut *lent.marks;
        let kept = &mut *lent.kept;
        let a = n.a as usize;
        Ok(match self {
            Routine::Read => read(text, items, rules)?.into(),
            Routine::Write => write(items, rules, n.head(), out)?.into(),
            Routine::WriteLabels => write_labels(items, a, Labels { levels, marks }, out)?.into(),
            Routine::Find => find(items, a, text)?.into(),
            Routine::ItemsOk => items_ok(items, a).into(),
            Routine::RulesOk => rules_ok(rules, n.head()).into(),
            Routine::Solve => solve(rules, n.head(), levels, marks)?.into(),
            Routine::Check => Success::of_checking(check(
                rules,
                n.head(),
                Labels { levels, marks },
            )?),
            Routine::CheckArray => {
                let list: [Rule; MOST_RULES] = array::from_fn(|r| rule_at(rules, r));
                Success::of_checking(check_array(list, n.head(), Labels { levels, marks })?)
            }
            Routine::Answer => answer(text, out)?.into(),
            Routine::Assign => assign(text, items, levels, marks)?.into(),
            Routine::HasRoom => Labels { levels, marks }.has_room(a).into(),
            Routine::FirstBad => Labels { levels, marks }.first_bad(a).unwrap_or(a).into(),
            Routine::LabelAt => Labels { levels, marks }.label_at(n.a).into(),
            Routine::RuleAt => rule_at(rules, a).into(),
            Routine::LeftJoin => left_join(rule_at(rules, a), &Labels { levels, marks }).into(),
            Routine::RuleOk => rule_ok(rule_at(rules, a), n.b).into(),
            Routine::Strip => strip(text, n.a != 0, kept, n.b, out)?.into(),
            Routine::ReaderClass => reader_class(text)?.into(),
            Routine::KeptColumns => kept_columns(
                items,
                n.head(),
                Labels { levels, marks },
                Class::new(n.c, n.d),
                text,
                n.e != 0,
                kept,
            )?
            .into(),
            Routine::ReadName => read_name(text, a).into(),
            Routine::ReadCount => read_count(text, a).into(),
            Routine::ReadClass => read_class(text, a).into(),
            Routine::ReadKey => read_key(text, a).into(),
            Routine::ReadField => read_field(text, a).into(),
            // Where there was no room, a put is shown by a place past the buffer's end.
            Routine::Put => put(items, out, a).unwrap_or(out.len() + 1).into(),
            Routine::PutCount => put_count(n.a, out, n.b as usize)
                .unwrap_or(out.len() + 1)
                .into(),
            Routine::PutClass => put_class(Class::new(n.a, n.b), out, n.c as usize)
                .unwrap_or(out.len() + 1)
                .into(),
            Routine::ReadRow => with_ends(
                levels,
                |ends| read_row(text, a, n.b != 0, n.c as usize, ends),
            )
            .into(),
            Routine::NthField => with_ends(
                levels,
                |ends| put(nth_field(text, a, ends, n.b as usize), out, 0).unwrap_or(out.len() + 1),
            )
            .into(),
        })
    }
}
