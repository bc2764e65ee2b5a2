//! What the first word of a line tells.

ghost use Rattle.std.specs.Prelude.{◌≡◌};
ghost use Rattle.net_model.specs.Forms.{begins_with};
ghost use Rattle.net_model.specs.KissForms.{kiss_directive_of};
ghost use Rattle.kiss_reader.specs.KissFaults.{is_end_word, is_unknown_word, is_row_word};

use net_model::KissDirective;

/// What a line that begins with this word is told to be.
pub(crate) fn directive_of(word: &[u8]) -> KissDirective
    ensures { result ≡ kiss_directive_of word.now }
{
    if word == b".i".as_slice() {
        KissDirective::Inputs
    } else if word == b".o".as_slice() {
        KissDirective::Outputs
    } else if word == b".p".as_slice() || word == b".s".as_slice() {
        KissDirective::Count
    } else if word == b".r".as_slice() {
        KissDirective::Reset
    } else if word == b".ilb".as_slice() {
        KissDirective::InputNames
    } else if word == b".ob".as_slice() {
        KissDirective::OutputNames
    } else if word == b".end".as_slice() || word == b".e".as_slice() {
        KissDirective::End
    } else if begins_with_dot(word) {
        KissDirective::Unknown
    } else {
        KissDirective::Row
    }
}

fn begins_with_dot(word: &[u8]) -> bool
    ensures { result ≡ begins_with 46 word.now }
{
    match word {
        [] => false,
        [first, ..] => *first == b'.',
    }
}

pub(crate) fn is_end_word(directive: KissDirective) -> bool
    ensures { result ≡ is_end_word directive }
{
    match directive {
        KissDirective::End => true,
        _ => false,
    }
}

pub(crate) fn is_unknown_word(directive: KissDirective) -> bool
    ensures { result ≡ is_unknown_word directive }
{
    match directive {
        KissDirective::Unknown => true,
        _ => false,
    }
}

pub(crate) fn is_row_word(directive: KissDirective) -> bool
    ensures { result ≡ is_row_word directive }
{
    match directive {
        KissDirective::Row => true,
        _ => false,
    }
}
