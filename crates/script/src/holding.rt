// The commands that show the session's state and put one in its place.
ghost use Rattle.std.specs.Prelude.{◌≤◌, IfSome};

use crate::session::{MEMBERS, OUT, SLAB, Session, WIDTH, put_words};
use states::{MemberState, Publication, State};
use std::io;
use tags::Tag;
use text::Output;

// The words of a member's line before its tags, the most tags, and the most words.
const RECORD: usize = 24;

const TAGS: u64 = 32;

const MEMBER: usize = 88;

// The class of an absent tag.
const ABSENT: u64 = 3;

// A tag: class, offset, microstep.
fn put_tag(out: &mut Output<OUT>, rt: &impl Print, t: Tag) -> io::Result<()> {
    let w = t.words();
    put_words(out, rt, &[w.class, w.offset, w.microstep])
}

fn put_limit(out: &mut Output<OUT>, rt: &impl Print, limit: Option<Tag>) -> io::Result<()> {
    match limit {
        None => put_words(out, rt, &[ABSENT, 0, 0]),
        Some(t) => put_tag(out, rt, t),
    }
}

// Whether a revision is set, and the revision.
fn put_mark(out: &mut Output<OUT>, rt: &impl Print, mark: Option<u64>) -> io::Result<()> {
    match mark {
        None => put_words(out, rt, &[0, 0]),
        Some(r) => put_words(out, rt, &[1, r]),
    }
}

// Unpublished, no event or an event; the revision; the event's tag.
fn put_publication(
    out: &mut Output<OUT>,
    rt: &impl Print,
    publication: Option<Publication>,
) -> io::Result<()> {
    match publication {
        None => put_words(out, rt, &[0, 0])?,
        Some(p) => put_words(out, rt, &[if p.next.is_none() { 1 } else { 2 }, p.revision])?,
    }
    put_limit(out, rt, publication.and_then(|p| p.next))
}

// The words of a member's record.
fn put_record(out: &mut Output<OUT>, rt: &impl Print, m: MemberState) -> io::Result<()> {
    out.put_item(rt, u64::from(m.joined))?;
    put_publication(out, rt, m.publication)?;
    put_mark(out, rt, m.revision)?;
    put_limit(out, rt, m.granted)?;
    put_limit(out, rt, m.bound)?;
    put_limit(out, rt, m.completed)?;
    put_mark(out, rt, m.asked)?;
    put_mark(out, rt, m.idle)?;
    put_words(out, rt, &[u64::from(m.stopped), m.held as u64])
}

// The tag that three words say, or that it is absent.
fn limit_of(class: u64, offset: u64, microstep: u64) -> Option<Option<Tag>> {
    if class == ABSENT {
        return if offset == 0 && microstep == 0 {
            Some(None)
        } else {
            None
        };
    }
    Some(Some(Tag::told(class, offset, microstep)?))
}

// The revision that two words say, or that it is not set.
fn mark_of(set: u64, revision: u64) -> Option<Option<u64>> {
    match set {
        0 if revision == 0 => Some(None),
        1 => Some(Some(revision)),
        _ => None,
    }
}

// The publication that a kind, a revision and a tag say.
fn publication_of(kind: u64, revision: u64, next: Option<Tag>) -> Option<Option<Publication>> {
    match (kind, next) {
        (0, None) if revision == 0 => Some(None),
        (1, None) | (2, Some(_)) => Some(Some(Publication { revision, next })),
        _ => None,
    }
}

// The record that a member's words say.
fn member_of(w: &[u64; MEMBER]) -> Option<MemberState>
    ensures { IfSome result (λ m. m.held ≤ 32) }
{
    if w[1] > 1 || w[22] > 1 || w[23] > TAGS {
        return None;
    }
    let event = limit_of(w[4], w[5], w[6])?;
    Some(MemberState {
        joined: w[1] == 1,
        publication: publication_of(w[2], w[3], event)?,
        revision: mark_of(w[7], w[8])?,
        granted: limit_of(w[9], w[10], w[11])?,
        bound: limit_of(w[12], w[13], w[14])?,
        completed: limit_of(w[15], w[16], w[17])?,
        held: w[23] as usize,
        asked: mark_of(w[18], w[19])?,
        idle: mark_of(w[20], w[21])?,
        stopped: w[22] == 1,
    })
}

impl Session {
    // A line for member i: its record, and the tags that it holds.
    fn say_member(&mut self, rt: &impl Print, i: usize) -> io::Result<()>
        requires { i ≤ 31 }
    {
        let m = self.state.members[i];
        self.out.put(rt, b"member")?;
        self.out.put_item(rt, i as u64)?;
        put_record(&mut self.out, rt, m)?;
        if m.held <= WIDTH {
            let slab = &self.slab[..];
            let start = WIDTH * i;
            put_words(&mut self.out, rt, &slab[start..start + 2 * m.held])?;
        }
        self.out.put(rt, b"\n")
    }

    // dump
    pub fn dump(&mut self, rt: &impl Print, rest: &[u8]) -> io::Result<()> {
        if !rest.is_empty() {
            return self.say_error(rt);
        }
        let s = self.state;
        self.say(rt, b"state", &[s.count as u64, s.identity, s.cause, s.code])?;
        for i in 0..s.count.min(MEMBERS) {
            self.say_member(rt, i)?;
        }
        Ok(())
    }

    // state COUNT IDENTITY CAUSE CODE
    pub fn state(&mut self, rt: &impl Print, rest: &[u8]) -> io::Result<()> {
        let mut words = [0u64; 4];
        let said = text::read_numbers(rest, 0, &mut words);
        if said != Some(4) || words[0] > MEMBERS as u64 {
            return self.say_error(rt);
        }
        self.state = State {
            count: words[0] as usize,
            identity: words[1],
            cause: words[2],
            code: words[3],
            ..self.state
        };
        self.say(rt, b"state", &[])
    }

    // word INDEX VALUE
    pub fn word(&mut self, rt: &impl Print, rest: &[u8]) -> io::Result<()> {
        let mut words = [0u64; 2];
        let said = text::read_numbers(rest, 0, &mut words);
        if said != Some(2) || words[0] >= SLAB as u64 {
            return self.say_error(rt);
        }
        self.slab[words[0] as usize] = words[1];
        self.say(rt, b"word", &[])
    }

    // Replaces the record of member i, and its stretch of the slab: its tags' words, then zeros.
    fn replace(&mut self, i: usize, m: MemberState, w: &[u64; MEMBER])
        requires { i ≤ 31 }
    {
        self.state.members[i] = m;
        let start = WIDTH * i;
        let slab = &mut self.slab[..];
        slab[start..start + WIDTH].copy_from_slice(&w[RECORD..]);
    }

    // member I and the words of its record
    pub fn member(&mut self, rt: &impl Print, rest: &[u8]) -> io::Result<()> {
        let mut words = [0u64; MEMBER];
        let said = text::read_numbers(rest, 0, &mut words);
        match member_of(&words) {
            Some(m) if said == Some(RECORD + 2 * m.held) && words[0] < MEMBERS as u64 => {
                self.replace(words[0] as usize, m, &words);
                self.say(rt, b"member", &[])
            }
            _ => self.say_error(rt),
        }
    }
}
