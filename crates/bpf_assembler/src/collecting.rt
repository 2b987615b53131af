//! The first pass: the lines, their labels and their instructions.

ghost use Rattle.std.specs.Prelude.{◌≡◌, ◌<◌, ◌≤◌, ◌+◌, ◌*◌, ◌++◌, ◌^◌, List, map, OnOk, IfOk, IfErr};
ghost use Rattle.bpf_text.specs.Lines.{TextLine};
ghost use Rattle.bpf_text.specs.Judged.{text_of, statement_of};
ghost use Rattle.bpf_assembler.specs.Text.{end_of, slots, entry_of};
ghost use Rattle.bpf_assembler.specs.Mirror.Passes.{AreLabels, PutsLabel, Knows, Adds, IsCollected, IsFaultOfLines, entry};

use crate::fault::{AsmFault, Why};
use crate::table::{Row, Table, put};
use bpf_text::{LineFault, Statement, read_line};
use std::alloc::Allocator;
use std::collections::BTreeMap;
use text_lines::first_line;

/// Records a line's label, and answers whether it is new.
fn put_label<'a, A: Allocator + Clone>(
    labels: &mut BTreeMap<&'a [u8], u64, A>,
    label: Option<&'a [u8]>,
    place: u64,
) -> Result<bool, AsmFault>
    ensures { (ws : List TextLine) → AreLabels labels.old ws → place ≡ end_of 0 ws →
        PutsLabel (text_of label.entry) labels.new ws result }
{
    let Some(name) = label else {
        return Ok(true);
    };
    let old = put(labels, name, place)?;
    Ok(old.is_none())
}

/// Records a line's instruction, and returns the place after it.
fn put_row<'a, A: Allocator>(
    rows: &mut Vec<Row<'a>, A>,
    number: u64,
    place: u64,
    body: &Option<Statement<'a>>,
) -> Result<u64, AsmFault>
    requires { place + 2 < 2 ^ 64 }
    ensures rows { OnOk result (map entry rows.new.items ≡
        map entry rows.old.items ++ entry_of number place (statement_of body.now)) }
    ensures place { IfOk result
        (λ next. (next ≡ place + slots (statement_of body.now)) × (next ≤ place + 2)) }
    ensures err { IfErr result (λ e. e ≡ AsmFault.Memory) }
{
    let Some(statement) = body else {
        return Ok(place);
    };
    let row = Row {
        number,
        place,
        line: statement.line,
        name: statement.name,
    };
    rows.extend_from_slice(&[row])?;
    Ok(place + u64::from(statement.line.slots()))
}

impl<'a, A: Allocator + Copy> Table<'a, A> {
    /// The table of the lines of a text.
    pub fn of(alloc: A, text: &'a [u8]) -> Result<Self, AsmFault>
        ensures collected { IfOk result
            (λ table. IsCollected text.now table.labels table.rows.items) }
        ensures fault { IfErr result (IsFaultOfLines text.now) }
    {
        let mut table = Table::new(alloc);
        let mut rest = text;
        while !rest.is_empty() {
            let (line, after) = first_line(rest);
            table.add(line)?;
            rest = after;
        }
        Ok(table)
    }

    /// Adds one more line.
    fn add(&mut self, text: &'a [u8]) -> Result<(), AsmFault>
        requires few { self.old.lines + 1 < 2 ^ 63 }
        requires room { self.old.place ≤ 2 * self.old.lines }
        ensures lines { (ws : List TextLine) →
            Knows self.old.labels self.old.rows.items self.old.lines self.old.place ws
            → Adds text.now self.new.labels self.new.rows.items self.new.lines self.new.place
            ws result }
        ensures count { OnOk result (self.new.lines ≡ self.old.lines + 1) }
        ensures place { OnOk result (self.new.place ≤ self.old.place + 2) }
    {
        let number = self.lines + 1;
        let parsed = match read_line(text) {
            Ok(parsed) => parsed,
            Err(LineFault::Syntax) => return Err(AsmFault::at(number, Why::Syntax)),
            Err(LineFault::Range) => return Err(AsmFault::at(number, Why::Range)),
        };
        if !put_label(&mut self.labels, parsed.label, self.place)? {
            return Err(AsmFault::at(number, Why::DuplicateLabel));
        }
        self.place = put_row(&mut self.rows, number, self.place, &parsed.body)?;
        self.lines = number;
        Ok(())
    }
}
