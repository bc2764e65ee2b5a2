//! A network as far as the lines above say it.

ghost use Rattle.std.specs.Prelude.{◌≡◌, ◌++◌, [], ◌∷◌, Some, Err, map, true, is_some, IfOk, OnOk, OnErr};
ghost use Rattle.net_model.specs.Faults.{Finds};
ghost use Rattle.net_model.specs.Forms.{RowLine, DefaultLine, LatchLine};
ghost use Rattle.net_model.specs.Nets.{net_of};
ghost use Rattle.net_model.specs.Spellings.{row_spelled};
ghost use Rattle.net_model.specs.NetTexts.{distinct, place_in, places_in, line_stands, default_stands};
ghost use Rattle.blifmv_lines.specs.Said.{texts, form_said};
ghost use Rattle.blifmv_tables.specs.Drafts.{nothing_said, closed, opens, row_under, default_at, draft_behind, open_of, net_of_draft, latch_fits};
ghost use Rattle.blifmv_tables.specs.RowFaults.{fault_at, kind_unless, row_kind, default_kind, line_kind};
ghost use Rattle.blifmv_tables.specs.Saying.{standing_of, draft_of};

use crate::lookup::{signal_of, signals_of, size_of};
use crate::rows::{kind_of_default, kind_of_row, read_default, read_row};
use blifmv_lines::Form;
use name_table::{NameSet, Names, VarId};
use net_model::{Latch, Net, Table, TextFault, TextKind};
use std::alloc::{AllocError, Global};

/// The table that stands open, and whether it is a reset table.
#[derive(Drop)]
pub struct Standing {
    pub is_reset: bool,
    pub table: Table,
}

/// A network as far as the lines above say it.
#[derive(Drop)]
pub struct Draft {
    pub inputs: Vec<VarId>,
    /// The names of the outputs, each once.
    pub outputs: NameSet,
    pub tables: Vec<Table>,
    pub latches: Vec<Latch>,
    pub resets: Vec<Table>,
    pub standing: Option<Standing>,
}

impl Draft {
    /// Of no line.
    pub fn new(alloc: Global) -> Draft
        ensures { draft_of result ≡ nothing_said }
    {
        Draft {
            inputs: Vec::new(alloc),
            outputs: NameSet::new(alloc),
            tables: Vec::new(alloc),
            latches: Vec::new(alloc),
            resets: Vec::new(alloc),
            standing: None,
        }
    }

    /// With one line more, which says this. A row or default that doesn't spell the entries of its table, and a latch of
    /// two signals with different numbers of values, are refused.
    pub fn with_line(
        self,
        alloc: Global,
        names: &Names,
        line: u64,
        form: Form<'_, '_>,
    ) -> Result<Draft, TextFault>
        ensures said { IfOk result (λ next. draft_of next ≡ draft_behind names.now (draft_of self) (form_said form.entry)) }
        ensures stands { OnOk result (line_stands names.now (open_of (draft_of self).standing) (form_said form.entry) ≡ true) }
        ensures fits { OnOk result (latch_fits names.now (form_said form.entry) ≡ true) }
        ensures told { Finds result (fault_at line (line_kind names.now (open_of (draft_of self).standing) (form_said form.entry))) }
    {
        match form {
            Form::Inputs(words) => self.closed()?.with_inputs(alloc, names, words),
            Form::Outputs(words) => self.closed()?.with_outputs(alloc, words),
            Form::Table { ins, outs } => self.closed()?.opening(alloc, names, false, ins, outs),
            Form::Reset { ins, outs } => self.closed()?.opening(alloc, names, true, ins, outs),
            Form::Latch { input, output } => self.closed()?.with_latch(names, line, input, output),
            Form::Row(words) => self.with_row(alloc, names, line, words),
            Form::Default(words) => self.with_default(alloc, names, line, words),
            Form::Model(_) => self.closed(),
            Form::Domains { .. } => self.closed(),
            Form::End => self.closed(),
        }
    }

    /// The network of the whole text.
    pub fn finished(self, alloc: Global, names: Names) -> Result<Net, TextFault>
        ensures ok { IfOk result (λ net. net_of net ≡ net_of_draft names (draft_of self)) }
        ensures err { OnErr result (result ≡ Err TextFault.Memory) }
    {
        let outputs = named_signals(alloc, &names, &self.outputs)?;
        let draft = self.closed()?;
        Ok(Net {
            names,
            inputs: draft.inputs,
            outputs,
            tables: draft.tables,
            latches: draft.latches,
            resets: draft.resets,
        })
    }

    // No table stands open any more.
    fn closed(mut self) -> Result<Draft, TextFault>
        ensures ok { IfOk result (λ next. draft_of next ≡ closed (draft_of self)) }
        ensures err { OnErr result (result ≡ Err TextFault.Memory) }
    {
        if let Some(standing) = self.standing.take() {
            if standing.is_reset {
                push(&mut self.resets, standing.table)?;
            } else {
                push(&mut self.tables, standing.table)?;
            }
        }
        Ok(self)
    }

    fn with_inputs(
        mut self,
        alloc: Global,
        names: &Names,
        words: &[&[u8]],
    ) -> Result<Draft, TextFault>
        ensures ok { IfOk result (λ next. draft_of next ≡ record (draft_of self) { inputs = (draft_of self).inputs ++ places_in names.now (texts words.now) }) }
        ensures err { OnErr result (result ≡ Err TextFault.Memory) }
    {
        let more = signals_of(alloc, names, words)?;
        self.inputs.extend_from_slice(more.as_slice())?;
        Ok(self)
    }

    fn with_outputs(mut self, alloc: Global, words: &[&[u8]]) -> Result<Draft, TextFault>
        ensures ok { IfOk result (λ next. draft_of next ≡ record (draft_of self) { outputs = distinct (draft_of self).outputs (texts words.now) }) }
        ensures err { OnErr result (result ≡ Err TextFault.Memory) }
    {
        add_names(alloc, &mut self.outputs, words)?;
        Ok(self)
    }

    fn with_latch(
        mut self,
        names: &Names,
        line: u64,
        input: &[u8],
        output: &[u8],
    ) -> Result<Draft, TextFault>
        ensures fits { OnOk result (latch_fits names.now (LatchLine input.now output.now) ≡ true) }
        ensures told { Finds result (fault_at line (kind_unless (latch_fits names.now (LatchLine input.now output.now)) TextKind.EqDomain)) }
        ensures said { IfOk result (λ next. draft_of next ≡ record (draft_of self) { latches = (draft_of self).latches ++ record { input = place_in names.now input.now; output = place_in names.now output.now } ∷ [] }) }
    {
        let latch = Latch {
            input: signal_of(names, input),
            output: signal_of(names, output),
        };
        if size_of(names, latch.input) != size_of(names, latch.output) {
            return Err(TextFault::At {
                line,
                kind: TextKind::EqDomain,
            });
        }
        push(&mut self.latches, latch)?;
        Ok(self)
    }

    // With a table that stands open.
    fn opening(
        mut self,
        alloc: Global,
        names: &Names,
        is_reset: bool,
        ins: &[&[u8]],
        outs: &[&[u8]],
    ) -> Result<Draft, TextFault>
        ensures ok { IfOk result (λ next. draft_of next ≡ record (draft_of self) { standing = opens is_reset names.now (texts ins.now) (texts outs.now) }) }
        ensures err { OnErr result (result ≡ Err TextFault.Memory) }
    {
        let table = Table {
            ins: signals_of(alloc, names, ins)?,
            outs: signals_of(alloc, names, outs)?,
            rows: Vec::new(alloc),
            otherwise: None,
        };
        self.standing = Some(Standing { is_reset, table });
        Ok(self)
    }

    fn with_row(
        mut self,
        alloc: Global,
        names: &Names,
        line: u64,
        words: &[&[u8]],
    ) -> Result<Draft, TextFault>
        ensures said { IfOk result (λ next. draft_of next ≡ draft_behind names.now (draft_of self) (RowLine (texts words.now))) }
        ensures stands { OnOk result (line_stands names.now (open_of (draft_of self).standing) (RowLine (texts words.now)) ≡ true) }
        ensures told { Finds result (fault_at line (row_kind names.now (open_of (draft_of self).standing) (texts words.now))) }
    {
        let Some(standing) = self.standing.take() else {
            return Err(TextFault::At {
                line,
                kind: TextKind::RowWidth,
            });
        };
        let standing = standing.with_row(alloc, names, line, words)?;
        self.standing = Some(standing);
        Ok(self)
    }

    fn with_default(
        mut self,
        alloc: Global,
        names: &Names,
        line: u64,
        words: &[&[u8]],
    ) -> Result<Draft, TextFault>
        ensures said { IfOk result (λ next. draft_of next ≡ draft_behind names.now (draft_of self) (DefaultLine (texts words.now))) }
        ensures stands { OnOk result (line_stands names.now (open_of (draft_of self).standing) (DefaultLine (texts words.now)) ≡ true) }
        ensures told { Finds result (fault_at line (default_kind names.now (open_of (draft_of self).standing) (texts words.now))) }
    {
        let Some(standing) = self.standing.take() else {
            return Err(TextFault::At {
                line,
                kind: TextKind::RowWidth,
            });
        };
        let standing = standing.with_default(alloc, names, line, words)?;
        self.standing = Some(standing);
        Ok(self)
    }
}

impl Standing {
    // With the row that these words spell.
    fn with_row(
        mut self,
        alloc: Global,
        names: &Names,
        line: u64,
        words: &[&[u8]],
    ) -> Result<Standing, TextFault>
        ensures said { IfOk result (λ next. standing_of next ≡ row_under names.now (texts words.now) (standing_of self)) }
        ensures stands { OnOk result (is_some (row_spelled names.now (standing_of self).table.ins (standing_of self).table.outs (texts words.now)) ≡ true) }
        ensures told { Finds result (fault_at line (row_kind names.now (open_of (Some (standing_of self))) (texts words.now))) }
    {
        match read_row(
            alloc,
            names,
            self.table.ins.as_slice(),
            self.table.outs.as_slice(),
            words,
        )? {
            Some(row) => {
                push(&mut self.table.rows, row)?;
                Ok(self)
            }
            None => Err(TextFault::At {
                line,
                kind: kind_of_row(
                    alloc,
                    names,
                    self.table.ins.as_slice(),
                    self.table.outs.as_slice(),
                    words,
                )?,
            }),
        }
    }

    // With the default that these words spell, where it has none.
    fn with_default(
        mut self,
        alloc: Global,
        names: &Names,
        line: u64,
        words: &[&[u8]],
    ) -> Result<Standing, TextFault>
        ensures said { IfOk result (λ next. standing_of next ≡ default_at names.now (texts words.now) (standing_of self)) }
        ensures stands { OnOk result (default_stands names.now (Some (record { ins = (standing_of self).table.ins; outs = (standing_of self).table.outs; has_default = is_some (standing_of self).table.otherwise })) (texts words.now) ≡ true) }
        ensures told { Finds result (fault_at line (default_kind names.now (open_of (Some (standing_of self))) (texts words.now))) }
    {
        if self.table.otherwise.is_some() {
            return Err(TextFault::At {
                line,
                kind: TextKind::TwiceDefault,
            });
        }
        match read_default(
            alloc,
            names,
            self.table.ins.as_slice(),
            self.table.outs.as_slice(),
            words,
        )? {
            Some(entries) => {
                self.table.otherwise = Some(entries);
                Ok(self)
            }
            None => Err(TextFault::At {
                line,
                kind: kind_of_default(alloc, names, self.table.outs.as_slice(), words)?,
            }),
        }
    }
}

// Puts the names behind the others, each once.
fn add_names(alloc: Global, names: &mut NameSet, words: &[&[u8]]) -> Result<(), AllocError>
    ensures { OnOk result (names.new ≡ distinct names.old (texts words.now)) }
{
    let mut left = words;
    while let [word, more @ ..] = left {
        let name = word.to_vec(alloc)?;
        names.add(name)?;
        left = more;
    }
    Ok(())
}

// The signals of these names.
fn named_signals(alloc: Global, names: &Names, set: &NameSet) -> Result<Vec<VarId>, AllocError>
    ensures { IfOk result (λ vars. map (λ v. v.0) vars.items ≡ places_in names.now set.now) }
{
    let mut vars = Vec::with_capacity(alloc, set.len())?;
    for place in 0..set.len() {
        let name = set.get(place).unwrap();
        vars.push(signal_of(names, name))?;
    }
    Ok(vars)
}

fn push<T: Drop>(items: &mut Vec<T>, item: T) -> Result<(), AllocError>
    ensures { OnOk result (items.new.items ≡ items.old.items ++ item ∷ []) }
{
    items.push(item)?;
    Ok(())
}
