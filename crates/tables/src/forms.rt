// What differs by how a store keeps texts.
ghost use Rattle.std.specs.Prelude.{◌≡◌};
ghost use Rattle.tables.specs.Forms.{by_form};

use super::limits::Texts;

// One of two numbers: that of texts in places of their own, or that of texts that share an area.
pub fn by_form(texts: Texts, placed: usize, shared: usize) -> usize
    ensures { result ≡ by_form texts placed shared }
{
    match texts {
        Texts::Placed => placed,
        Texts::Shared(_) => shared,
    }
}
