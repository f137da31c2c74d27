//! Of values of the primitive types.

mod keys;
mod limits;
mod memory;
mod numbers;
mod prim;
mod sizes;
mod strings;

use bac_value::laws;

// The laws are functions that do nothing: their contracts are what they say.
#[test]
fn laws_can_be_called() {
    laws::contents_have_one_value();
    laws::only_values_have_contents();
    laws::written_contents_are_least();
    laws::contents_keep_the_limit();
    laws::contents_tell_the_value();
}
