// The test that no role reaches itself by one or more attachments. A role is freed where all of its direct seniors are; on a circle none ever is.
ghost use Rattle.std.specs.Prelude.{◌≡◌, ◌↔◌, true, ◌/◌, ◌%◌, ◌<◌};
ghost use Rattle.bits.specs.RoleSet.{Added};
ghost use Rattle.mtas.specs.Hierarchy.{Acyclic};
ghost use Rattle.hierarchy.specs.Links.{linked, Full};
ghost use Rattle.hierarchy.specs.Freed.{TopsOf, AllFree, Freed, Visited, VisitedAll, Filled, Slide};

use bits::RoleSet;
use layout::Links;
use order::Order;

// The roles of issuer j that have no senior, as bits of a word.
fn tops_of(links: &Links, j: usize) -> u16
    requires { j < 16 }
    ensures { TopsOf (linked links.now) j result }
{
    let mut word = 0u16;
    for q in 0..16 {
        if bits::gather_row(links, 16 * (16 * j + q), RoleSet::empty()) == 0 {
            word = bits::with_bit(word, q as u8);
        }
    }
    word
}

// The roles that have no senior.
fn tops(links: &Links) -> RoleSet
    ensures { AllFree (linked links.now) result.words }
{
    let mut words = [0u16; 16];
    for j in 0..16 {
        words[j] = tops_of(links, j);
    }
    RoleSet { words }
}

// What visits roles: the attachment words, and a slide. Of it, sixteen words from place 15 - i on are 65535 for issuer i, and 0 for the others.
#[derive(Drop)]
struct Visitor<'a> {
    links: &'a Links,
    slide: [u16; 31],
    ghost slid: { Slide slide },
}

impl<'a> Visitor<'a> {
    fn of(links: &'a Links) -> Self
        ensures { result.links.now ≡ links.now }
    {
        let mut slide = [0u16; 31];
        slide[15] = 65535;
        Visitor { links, slide }
    }

    // The set with the k-th role. Every word is written, so that the set can stay in vector registers.
    fn join(&self, mut set: RoleSet, k: usize) -> RoleSet
        requires { k < 256 }
        ensures { Added (k / 16) (k % 16) set.words result.words }
    {
        let at = 15 - k / 16;
        let bit = bits::with_bit(0, (k % 16) as u8);
        for (i, w) in set.words.iter_mut().enumerate() {
            *w |= self.slide[at + i] & bit;
        }
        set
    }

    // The k-th role is freed if all of its direct seniors are.
    fn visit(&self, freed: RoleSet, k: usize) -> RoleSet
        requires { k < 256 }
        ensures { Visited (linked self.now.links.now) k freed.words result.words }
    {
        let links = self.links;
        if bits::gather_row(links, 16 * k, freed) == 0 {
            self.join(freed, k)
        } else {
            freed
        }
    }

    // The set with the roles of an order, if each comes after its direct seniors; else the set as it was.
    // What a role lacks is gathered over all of them and looked at once, since a test of each would hold the next one up.
    // The order comes by value: lent, it would be copied to be lent, and take its 264 bytes of stack twice.
    fn visit_in_order(&self, freed: RoleSet, order: Order) -> RoleSet
        ensures { Freed (linked self.now.links.now) freed.words result.words }
    {
        let links = self.links;
        let mut visited = freed;
        let mut lacking = RoleSet::empty();
        for &k in order.as_slice() {
            let k = k as usize;
            lacking = bits::stray_row(links, 16 * k, visited, lacking);
            visited = self.join(visited, k);
        }
        if lacking.gather() == 0 {
            visited
        } else {
            freed
        }
    }

    // One visit of every role.
    fn sweep(&self, mut freed: RoleSet) -> RoleSet
        ensures { VisitedAll (linked self.now.links.now) freed.words result.words }
    {
        for k in 0..256 {
            freed = self.visit(freed, k);
        }
        freed
    }

    // Sweeps until one changes nothing.
    fn fill(&self, mut freed: RoleSet) -> RoleSet
        ensures { Filled (linked self.now.links.now) freed.words result.words }
    {
        loop {
            let next = self.sweep(freed);
            if bits::gather_row(&next.words, 0, freed) == 0 {
                return next;
            }
            freed = next;
        }
    }
}

// Whether every role is in the set.
fn full(set: RoleSet) -> bool
    ensures { (result ≡ true) ↔ Full set.words }
{
    set.words == [u16::MAX; 16]
}

// Whether no role reaches itself by one or more attachments. With seniors before juniors one visit frees each role; sweeps decide the rest.
#[inline(never)]
pub fn acyclic(links: &Links) -> bool
    ensures { (result ≡ true) ↔ Acyclic (linked links.now) }
{
    let visitor = Visitor::of(links);
    let first = tops(links);
    let freed = visitor.visit_in_order(first, order::search(links, first));
    full(freed) || full(visitor.fill(freed))
}
