//! How long a text is, known before it is made.
ghost use Rattle.std.specs.Prelude.{◌≡◌, ◌<◌, length, slice_set};
ghost use Rattle.std.specs.List.{AllByRecursion};
ghost use Rattle.cls_term.specs.Components.{greatest_of};
ghost use Rattle.cls_assemble.specs.Spelling.{IsNumbered};
ghost use Rattle.cls_assemble.specs.Texts.{text_by, greatest_hole};
ghost use Rattle.cls_assemble.specs.Lengths.{pieces_length, capped_length};

use crate::capped::add_capped;
use crate::template::Template;
use crate::templates::Templates;
use cls_base::limits::MAX_HOLE;
use cls_term::Term;

/// The number of bytes of the term's text, and one more than the limit if it is over the limit. It takes no memory, and
/// goes to each part of the term once, whatever the length of its template.
#[tactic(auto, using(crate::proofs::Texts::parts))]
pub(crate) fn text_length(templates: &Templates, term: &Term) -> usize
    requires { greatest_of term.now < length templates.now }
    ensures { result ≡ capped_length (length (text_by templates.now term.now)) }
{
    let template = &templates.as_slice()[term.head as usize];
    let greatest = template.greatest();
    let mut lengths = [1; MAX_HOLE as usize];
    let mut surplus = 0;
    for (index, argument) in term.args.as_slice().iter().enumerate() {
        let length = text_length(templates, argument);
        put_length(&mut lengths, index, length);
        if index >= greatest {
            surplus = add_capped(surplus, length + 2);
        }
    }
    add_capped(template.length(&lengths), surplus)
}

impl Template {
    /// The greatest number of a hole, and 0 if there is none.
    pub(crate) fn greatest(&self) -> usize
        ensures { result ≡ greatest_hole self.now }
    {
        self.counts.greatest
    }

    /// The number of bytes that the pieces make if the holes get texts of these lengths.
    #[tactic(auto, using(crate::proofs::Lengths::segments))]
    fn length(&self, lengths: &[usize; 16]) -> usize
        ensures length { result ≡ capped_length (pieces_length lengths.now self.now) }
        ensures numbered { AllByRecursion IsNumbered self.now }
    {
        let bytes = self.tail.as_str().len();
        add_capped(self.counts.length(lengths), bytes)
    }
}

fn put_length(lengths: &mut [usize; 16], index: usize, length: usize)
    ensures { lengths.new ≡ slice_set lengths.old index length }
{
    if index < lengths.len() {
        lengths[index] = length;
    }
}
