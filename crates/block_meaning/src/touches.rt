//! What an action touches.

ghost use Rattle.std.specs.Prelude.{◌≡◌, ◌+◌, ◌++◌, Bool, true, Some, IfOk, IfSome, OnOk, length, map};
ghost use Rattle.block_store.specs.Actions.{bytes_at, reading_parts, writing};
ghost use Rattle.c_meaning.specs.Touches.{each, of_thread, read_kind, renewal, starting, whole_block, write_kind};
ghost use Rattle.race_rules.specs.declared.touch.TouchKind.TheVariants as kinds;
ghost use Rattle.source_state.specs.Worlds.{action_of, printed_of, world_of};
ghost use Rattle.block_meaning.specs.Threads.{touches_in};
ghost use Rattle.block_meaning.specs.inner.Touches.{GainsOnly, ReadsPart, before_its_end, comparing_of, end_of, says_equal};

use crate::touch_list::Touches;
use ak_words::NoMemory;
use block_store::{Answer, Ptr, Value};
use race_rules::{Touch, TouchKind};
use source_state::control::Site;
use source_state::{Printed, SharedAction, World};
use std::alloc::Global;

/// The two numbers that a compare reaches, of so many bytes: which of them it writes is known once it is done.
#[derive(Clone, Copy, Debug, PartialEq, Eq)]
pub struct Comparing {
    /// The object.
    pub at: Ptr,
    /// The wanted number.
    pub want: Ptr,
    /// The bytes of each.
    pub bytes: u32,
}

/// Touches that are gathered, each named at one place.
#[derive(Drop)]
pub struct Gathered {
    alloc: Global,
    /// The place.
    pub place: u32,
    /// The touches.
    pub touches: Touches,
    /// Whether each could be told: its cells end below 2^32, and its thread's number is less. Of what is done each can.
    pub fits: bool,
}

impl Gathered {
    ghost use Rattle.std.specs.Prelude.{[], ◌∷◌};

    // No touches.
    fn new(alloc: Global, place: u32) -> Self
        ensures touches { touches_in result.touches ≡ [] }
        ensures place { result.place ≡ place }
        ensures fits { result.fits ≡ true }
    {
        Gathered {
            place,
            alloc,
            touches: Touches::None,
            fits: true,
        }
    }

    // So many bytes at a pointer are touched, where there is one and the pointer isn't null.
    fn bytes(&mut self, kind: TouchKind, at: Ptr, bytes: u128) -> Result<(), NoMemory>
        ensures { (writes : Bool) → OnOk result (GainsOnly self.old self.new (each self.old.place kind (bytes_at writes bytes at))) }
    {
        let Ptr::To { block, offset } = at else {
            return Ok(());
        };
        if bytes == 0 {
            return Ok(());
        }
        match end_below(offset, bytes) {
            None => {
                self.fits = false;
                Ok(())
            }
            Some(to) => {
                self.touches.push(
                    self.alloc,
                    Touch {
                        kind,
                        block,
                        from: offset,
                        to,
                        place: self.place,
                    },
                )?;
                Ok(())
            }
        }
    }

    // So many bytes at each of two pointers are touched.
    fn two(
        &mut self,
        first: TouchKind,
        from: Ptr,
        second: TouchKind,
        to: Ptr,
        bytes: u128,
    ) -> Result<(), NoMemory>
        ensures { (a b : Bool) → OnOk result (GainsOnly self.old self.new (each self.old.place first (bytes_at a bytes from) ++ each self.old.place second (bytes_at b bytes to))) }
    {
        self.bytes(first, from, bytes)?;
        self.bytes(second, to, bytes)?;
        Ok(())
    }

    // All cells of the block at a pointer are touched.
    fn whole_block(&mut self, kind: TouchKind, world: &World, at: Ptr) -> Result<(), NoMemory>
        ensures { OnOk result (GainsOnly self.old self.new (whole_block self.old.place kind (world_of world.now).blocks at)) }
    {
        match at {
            Ptr::Null => Ok(()),
            Ptr::To { block, offset: _ } => {
                let size = world.store.store().live_size(block).unwrap_or(0);
                self.bytes(kind, Ptr::To { block, offset: 0 }, u128::from(size))?;
                Ok(())
            }
        }
    }

    // A realloc is told this answer.
    fn renewal(&mut self, world: &World, answer: Answer, at: Ptr) -> Result<(), NoMemory>
        ensures { OnOk result (GainsOnly self.old self.new (renewal self.old.place answer (world_of world.now).blocks at)) }
    {
        match answer {
            Answer::Plain => Ok(()),
            Answer::None => Ok(()),
            Answer::Got => {
                self.whole_block(TouchKind::Read, world, at)?;
                self.whole_block(TouchKind::Write, world, at)?;
                Ok(())
            }
        }
    }

    // A thread is made or joined.
    fn of_thread(&mut self, kind: TouchKind) -> Result<(), NoMemory>
        ensures { OnOk result (GainsOnly self.old self.new (of_thread self.old.place kind ∷ [])) }
    {
        self.touches.push(
            self.alloc,
            Touch {
                kind,
                block: 0,
                from: 0,
                to: 0,
                place: self.place,
            },
        )?;
        Ok(())
    }

    // A new thread is told this answer.
    fn starting(&mut self, world: &World, answer: Answer, to: Ptr) -> Result<(), NoMemory>
        ensures { OnOk result (GainsOnly self.old self.new (starting self.old.place answer to (length (world_of world.now).threads))) }
    {
        match answer {
            Answer::Plain => Ok(()),
            Answer::None => Ok(()),
            Answer::Got => {
                self.bytes(TouchKind::Write, to, 8)?;
                self.start(world.threads.len())?;
                Ok(())
            }
        }
    }

    // A thread of this number is made.
    fn start(&mut self, number: usize) -> Result<(), NoMemory>
        ensures { OnOk result (GainsOnly self.old self.new (of_thread self.old.place (kinds.Start number) ∷ [])) }
    {
        if number > u32::MAX as usize {
            self.fits = false;
            return Ok(());
        }
        self.of_thread(TouchKind::Start(number as u32))?;
        Ok(())
    }

    // A thread of this number is waited for.
    fn join(&mut self, number: u128) -> Result<(), NoMemory>
        ensures { OnOk result (GainsOnly self.old self.new (of_thread self.old.place (kinds.Join number) ∷ [])) }
    {
        if number > u32::MAX as u128 {
            self.fits = false;
            return Ok(());
        }
        self.of_thread(TouchKind::Join(number as u32))?;
        Ok(())
    }

    // The thread of this number is joined.
    fn joining(&mut self, number: u128, to: Ptr) -> Result<(), NoMemory>
        ensures { OnOk result (GainsOnly self.old self.new (each self.old.place kinds.Write (writing 4 to) ++ of_thread self.old.place (kinds.Join number) ∷ [])) }
    {
        self.bytes(TouchKind::Write, to, 4)?;
        self.join(number)?;
        Ok(())
    }

    // Texts are read.
    fn print(&mut self, world: &World, parts: &[Printed]) -> Result<(), NoMemory>
        ensures { OnOk result (GainsOnly self.old self.new (each self.old.place kinds.Read (reading_parts (world_of world.now).blocks (map printed_of parts.now)))) }
    {
        'parts: for part in parts {
            self.read_part(world, part)?;
        }
        Ok(())
    }

    // A part of what is printed is read; a text with the zero byte that ends it.
    fn read_part(&mut self, world: &World, part: &Printed) -> Result<(), NoMemory>
        ensures { OnOk result (ReadsPart self.old self.new (world_of world.now).blocks (printed_of part.now)) }
    {
        match part {
            Printed::Bytes(_) => Ok(()),
            Printed::Text(at) => match world.store.store().text_len(*at) {
                Ok(length) => {
                    self.bytes(TouchKind::Read, *at, u128::from(length) + 1)?;
                    Ok(())
                }
                Err(_) => {
                    self.fits = false;
                    Ok(())
                }
            },
        }
    }

    // What an action touches that is done, but for the end of a compare.
    fn action(
        &mut self,
        world: &World,
        answer: Answer,
        atomic: bool,
        action: &SharedAction,
    ) -> Result<(), NoMemory>
        ensures { OnOk result (GainsOnly self.old self.new (before_its_end self.old.place (world_of world.now) answer atomic (action_of action.now))) }
    {
        match action {
            SharedAction::Load(at, how) => self.bytes(
                read_kind(atomic),
                *at,
                u128::from(how.size()),
            ),
            SharedAction::Store(at, v) => {
                self.bytes(write_kind(atomic), *at, u128::from(v.access().size()))
            }
            SharedAction::Copy(to, from, n, _, _) => {
                self.two(TouchKind::Read, *from, TouchKind::Write, *to, *n)
            }
            SharedAction::Allocate(_, _) => Ok(()),
            SharedAction::Reallocate(at, _) => self.renewal(world, answer, *at),
            SharedAction::Free(at) => self.whole_block(TouchKind::Write, world, *at),
            SharedAction::Change(at, _, by) => {
                let bytes = u128::from(by.ty.bits / 8);
                self.two(
                    TouchKind::AtomicRead,
                    *at,
                    TouchKind::AtomicWrite,
                    *at,
                    bytes,
                )
            }
            SharedAction::Compare(at, want, new) => {
                let bytes = u128::from(new.ty.bits / 8);
                self.two(TouchKind::AtomicRead, *at, TouchKind::Read, *want, bytes)
            }
            SharedAction::Print(parts) => self.print(world, parts),
            SharedAction::Lock(at) => self.bytes(TouchKind::Lock, *at, 8),
            SharedAction::Unlock(at) => self.bytes(TouchKind::Unlock, *at, 8),
            SharedAction::Destroy(at) => self.bytes(TouchKind::Write, *at, 8),
            SharedAction::Start(to, _, _) => self.starting(world, answer, *to),
            SharedAction::Join(number, to) => self.joining(*number, *to),
            SharedAction::Finish(_) => Ok(()),
        }
    }

    // What a compare touches at its end, where the action was one, by the value that it gave.
    fn end(&mut self, c: Option<Comparing>, v: Option<Value>) -> Result<(), NoMemory>
        ensures { OnOk result (GainsOnly self.old self.new (end_of self.old.place c v)) }
    {
        match c {
            None => Ok(()),
            Some(c) => {
                self.compared(c, v)?;
                Ok(())
            }
        }
    }

    // A compare writes its object where the numbers were equal, and else the wanted number.
    fn compared(&mut self, c: Comparing, v: Option<Value>) -> Result<(), NoMemory>
        ensures { OnOk result (GainsOnly self.old self.new (end_of self.old.place (Some c) v)) }
    {
        let equal = says_equal(v);
        if equal {
            self.bytes(TouchKind::AtomicWrite, c.at, u128::from(c.bytes))?;
            Ok(())
        } else {
            self.bytes(TouchKind::Write, c.want, u128::from(c.bytes))?;
            Ok(())
        }
    }
}

// Where so many bytes from an offset on end, if that is below 2^32.
fn end_below(offset: u32, bytes: u128) -> Option<u32>
    ensures { IfSome result (λ to. to ≡ offset + bytes) }
{
    if bytes > u32::MAX as u128 {
        return None;
    }
    offset.checked_add(bytes as u32)
}

// The kind of a read, and of a write.
fn read_kind(atomic: bool) -> TouchKind
    ensures { result ≡ read_kind atomic }
{
    if atomic {
        TouchKind::AtomicRead
    } else {
        TouchKind::Read
    }
}

fn write_kind(atomic: bool) -> TouchKind
    ensures { result ≡ write_kind atomic }
{
    if atomic {
        TouchKind::AtomicWrite
    } else {
        TouchKind::Write
    }
}

/// What an action touches in this world, if it is done under this answer; of a compare all but what it writes.
pub fn gather(
    alloc: Global,
    world: &World,
    answer: Answer,
    site: Site,
    action: &SharedAction,
) -> Result<Gathered, NoMemory>
    ensures place { IfOk result (λ g. g.place ≡ site.place) }
    ensures touches { IfOk result (λ g. g.fits ≡ true → touches_in g.touches ≡ before_its_end site.place (world_of world.now) answer site.atomic (action_of action.now)) }
{
    let mut g = Gathered::new(alloc, site.place);
    g.action(world, answer, site.atomic, action)?;
    Ok(g)
}

/// The numbers that a compare reaches.
pub fn compare_of(action: &SharedAction) -> Option<Comparing>
    ensures { result ≡ comparing_of action.now }
{
    match action {
        SharedAction::Compare(at, want, new) => Some(Comparing {
            at: *at,
            want: *want,
            bytes: u32::from(new.ty.bits) / 8,
        }),
        _ => None,
    }
}

// Whether the value of a compare says that the numbers were equal.
fn says_equal(v: Option<Value>) -> bool
    ensures { result ≡ says_equal v }
{
    match v {
        Some(Value::Num(n)) => n.value == 1,
        Some(Value::Pointer(_)) => false,
        None => false,
    }
}

/// All touches of what was done, which gave this value. One that can't be told is answered as want of memory.
pub fn finish(g: Gathered, c: Option<Comparing>, v: Option<Value>) -> Result<Touches, NoMemory>
    ensures fits { OnOk result (g.fits ≡ true) }
    ensures touches { IfOk result (λ all. touches_in all ≡ touches_in g.touches ++ end_of g.place c v) }
{
    let mut g = g;
    g.end(c, v)?;
    if g.fits { Ok(g.touches) } else { Err(NoMemory) }
}
