//! The keys that a host has loaded.
ghost use Rattle.std.specs.Prelude.{◌≡◌, ◌<◌, ◌≤◌, ◌+◌, IfOk, IfErr, OnOk, IsErrOf, length, map, take, drop};
ghost use Rattle.load_memory.specs.Keys.{key_of};
ghost use Rattle.flat_orders.specs.Written.{key_said};
ghost use Rattle.host_clients.specs.AskedKeys.{IsKeyFault, flat_keys};
ghost use Rattle.host_clients.specs.Laid.{AreKeys, ShapeFault, KeysFault, laid_keys};

use crate::fault::Fault;
use flat_rows::FlatTexts;
use load_memory::Key;
use std::alloc::Global;

/// Keys of a loader, as a host passes them.
#[derive(Clone, Copy)]
pub struct FlatKeys<'h> {
    /// The number of the loader, from 0.
    pub loader: usize,
    /// For each key how many texts it has: none asks for everything, two are a pair.
    pub shapes: &'h [u32],
    /// For each text where it ends in `bytes`.
    pub ends: &'h [u32],
    /// The texts, in UTF-8, each from where the one before it ends.
    pub bytes: &'h [u8],
}

// The key of `count` texts from `at` on, of a loader whose keys have `width`.
fn key_at(
    alloc: Global,
    texts: &FlatTexts<'_>,
    at: usize,
    count: u32,
    width: u32,
) -> Result<Key, Fault>
    requires within { at ≤ length texts.now }
    requires width { width ≤ 2 }
    ensures key { IfOk result (λ key. key_of key
        ≡ key_said (take count (drop at texts.now))) }
    ensures within { IfOk result
        (λ _. at + count ≤ length texts.now) }
    ensures fits { OnOk result (count ≡ width) }
    ensures fault { IfErr result IsKeyFault }
    ensures shape { IfErr result
        (ShapeFault width count (length texts.now) at) }
{
    if count != width {
        return Err(Fault::BadKey);
    }
    if texts.len() - at < count as usize {
        return Err(Fault::TooFewTexts);
    }
    match count {
        0 => Ok(Key::All),
        1 => Ok(Key::of_text(alloc, texts.get(at))?),
        _ => Ok(Key::of_pair(alloc, texts.get(at), texts.get(at + 1))?),
    }
}

impl FlatKeys<'_> {
    /// The keys, in order, of a loader whose keys have `width` texts.
    ///
    /// # Errors
    ///
    /// [`NotUtf8`](Fault::NotUtf8), [`BadEnds`](Fault::BadEnds); then of the first key that has it, [`BadKey`](Fault::BadKey) or
    /// [`TooFewTexts`](Fault::TooFewTexts); then [`TextsLeft`](Fault::TextsLeft). [`NoMemory`](Fault::NoMemory).
    pub fn read(&self, alloc: Global, width: u32) -> Result<Vec<Key>, Fault>
        requires { width ≤ 2 }
        ensures keys { IfOk result (λ read. map key_of
            read.items ≡ (flat_keys self.now).keys) }
        ensures formed { OnOk result (AreKeys width (laid_keys self.now)) }
        ensures fault { IfErr result IsKeyFault }
        ensures first { IfErr result
            (KeysFault width (laid_keys self.now)) }
    {
        let texts = FlatTexts::new(self.bytes, self.ends)?;
        let len = texts.len();
        let mut read = Vec::with_capacity(alloc, self.shapes.len())?;
        let mut at = 0;
        for count in self.shapes {
            let key = key_at(alloc, &texts, at, *count, width)?;
            if read.push(key).is_err() {
                return Err(Fault::NoMemory);
            }
            at += *count as usize;
        }
        if at < len {
            return Err(Fault::TextsLeft);
        }
        Ok(read)
    }
}
