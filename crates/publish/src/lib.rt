// PUBLISH on the mailboxes that the kernel lends: who receives an event, whether one of these has no place, and the posts.
// Each goes through the objects from the highest down.
#![tactic(auto)]

ghost use Rattle.std.specs.Prelude.{cond, false, ◌≡◌, ℕ, ◌-◌, ◌<◌, ◌≤◌, eqb, get_or, length};
ghost use Rattle.machine.specs.Events.{full_receiver, published, receivers};
ghost use Rattle.machine.specs.Numbers.{blocks, objects};
ghost use Rattle.machine.specs.State.{State, want_place, with_boxes};
ghost use Rattle.mail.specs.Box.{box_at};
ghost use Rattle.mail.specs.View.{boxes};
ghost use Rattle.publish.specs.Arrays.{HavePlaces, Reads, holding};

use ground::byte_at;
use mail::{Hand, Ring, entry_of};
use numbers::{ALL_SIGNAL_PLACES, OBJECTS, SIGNAL_PLACES};

// Whether object p subscribes to signal g. The array is flat, as `want_place` has it.
pub fn subscribes(wants: &[u8; ALL_SIGNAL_PLACES], p: usize, g: usize) -> bool
    requires { (1 ≤ p) × (p ≤ objects) × (g < 256) }
    ensures { result ≡ eqb (get_or wants.now (want_place p g) 0) 1 }
{
    byte_at(wants, SIGNAL_PLACES * (p - 1) + g) == 1
}

// Whether object p subscribes to signal g and has no place.
fn is_full(
    wants: &[u8; ALL_SIGNAL_PLACES],
    depths: &[u8; OBJECTS],
    mail: &[Ring; OBJECTS],
    p: usize,
    g: usize,
) -> bool
    requires { (1 ≤ p) × (p ≤ objects) × (g < 256) }
    ensures { result ≡ cond (eqb (get_or wants.now (want_place p g) 0) 1)
        (eqb (get_or depths.now (p - 1) 0 - length (box_at (boxes mail.now) (p - 1))) 0) false }
{
    subscribes(wants, p, g) && usize::from(depths[p - 1]).saturating_sub(mail[p - 1].len()) == 0
}

// Whether an object that subscribes to signal g has no place.
pub fn any_full(
    wants: &[u8; ALL_SIGNAL_PLACES],
    depths: &[u8; OBJECTS],
    mail: &[Ring; OBJECTS],
    g: usize,
) -> bool
    requires { g < 256 }
    ensures { (s : State) → Reads s wants.now depths.now mail.now → result ≡ full_receiver s g objects }
{
    for p in (1..=OBJECTS).rev() {
        if is_full(wants, depths, mail, p, g) {
            return true;
        }
    }
    false
}

// Block b goes to the back of every subscriber to signal g, each of which has room. Their number is answered: so many references are to be
// added.
pub fn post_to_all(
    wants: &[u8; ALL_SIGNAL_PLACES],
    mail: &mut [Ring; OBJECTS],
    b: usize,
    g: usize,
) -> u8
    requires { (b < blocks) × (g < 256) × HavePlaces wants.now mail.old g objects }
    ensures number { (s : State) → s.wants ≡ wants.now → result ≡ receivers s g objects }
    ensures posts { (s : State) → s.wants ≡ wants.now →
        holding s (boxes mail.new) b result ≡ published (with_boxes (boxes mail.old) s) g b objects }
{
    let mut n: u8 = 0;
    for p in (1..=OBJECTS).rev() {
        if subscribes(wants, p, g) {
            mail[p - 1].push_back(entry_of(Hand::Block(b as u8)));
            n += 1;
        }
    }
    n
}
