//! What the first word of a line tells.

ghost use Rattle.std.specs.Prelude.{◌≡◌};
ghost use Rattle.net_model.specs.Forms.{directive_of, parts_arrows};

use crate::signs::begins_with;
use net_model::Directive;

/// What a line that begins with this word is told to be.
pub fn directive_of(word: &[u8]) -> Directive
    ensures { result ≡ directive_of word.now }
{
    if word == b".model".as_slice() {
        Directive::Model
    } else if word == b".inputs".as_slice() {
        Directive::Inputs
    } else if word == b".outputs".as_slice() {
        Directive::Outputs
    } else if word == b".mv".as_slice() {
        Directive::Domains
    } else if word == b".table".as_slice() || word == b".names".as_slice() {
        Directive::Table
    } else if word == b".reset".as_slice() || word == b".r".as_slice() {
        Directive::Reset
    } else if word == b".latch".as_slice() {
        Directive::Latch
    } else if word == b".default".as_slice() || word == b".def".as_slice() {
        Directive::Default
    } else if word == b".subckt".as_slice() {
        Directive::Instance
    } else if word == b".end".as_slice() {
        Directive::End
    } else if begins_with(b'.', word) {
        Directive::Unknown
    } else {
        Directive::Row
    }
}

/// Whether arrows may be joined with the next word in the lines of this directive.
pub fn parts_arrows(directive: Directive) -> bool
    ensures { result ≡ parts_arrows directive }
{
    match directive {
        Directive::Table => true,
        Directive::Reset => true,
        _ => false,
    }
}
