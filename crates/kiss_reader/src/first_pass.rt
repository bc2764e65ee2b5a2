//! The first pass over the text of a machine.

ghost use Rattle.std.specs.Prelude.{◌≡◌, [], IfOk};
ghost use Rattle.lex_core.specs.LogicalLines.{logical_lines};
ghost use Rattle.net_model.specs.Faults.{Finds};
ghost use Rattle.net_model.specs.KissTexts.{kiss_text_in};
ghost use Rattle.kiss_reader.specs.Above.{nothing_above, fault_from};
ghost use Rattle.kiss_reader.specs.Read.{IsRead};

use crate::buffer::fill;
use crate::header::Header;
use crate::place::{Place, place_behind};
use crate::take_line::take_line;
use lex_core::Lines;
use name_table::NameSet;
use net_model::TextFault;
use std::alloc::Global;

/// What the first pass reads: the last place, the names of columns and of the state to start in, and the states.
#[derive(Drop)]
pub(crate) struct Read<'a> {
    pub place: Place,
    pub header: Header<'a>,
    pub states: NameSet,
}

/// What the lines of the text say of its columns and states, or the first fault that a line has by itself and those
/// above it.
pub(crate) fn read_lines(alloc: Global, bytes: &[u8]) -> Result<Read<'_>, TextFault>
    ensures fault { Finds result (fault_from nothing_above [] [] (logical_lines bytes.now)) }
    ensures read { IfOk result (IsRead (kiss_text_in bytes.now)) }
{
    let mut words = Vec::new(alloc);
    let mut lines = Lines::new(bytes);
    let mut place = Place::new();
    let mut columns = NameSet::new(alloc);
    let mut states = NameSet::new(alloc);
    let mut header = Header::new();
    while let Some(line) = lines.next_line() {
        fill(&mut words, &line)?;
        let number = line.number();
        let form = match take_line(alloc, place, &mut columns, &mut states, number, &words) {
            Ok(form) => form,
            Err(fault) => return Err(fault),
        };
        header.keep(alloc, form)?;
        place = place_behind(place, form);
    }
    Ok(Read {
        place,
        header,
        states,
    })
}
