//! The loaders of a server, as a host reads them.
ghost use Rattle.std.specs.Prelude.{◌≡◌, ◌≤◌, ◌++◌, ◌∷◌, ◌+◌, [], IfOk, OnOk, OnErr, map, option_map, length, slice_get};
ghost use Rattle.std.specs.List.{flat_map};
ghost use Rattle.load_memory.specs.Cells.{cut};
ghost use Rattle.flat_orders.specs.Written.{size_of};
ghost use Rattle.gq_bindings.specs.Seen.{by_of, loader_of};
ghost use Rattle.host_clients.specs.Lines.{width_at};
ghost use Rattle.host_clients.specs.LoaderTexts.{columns_by, kind_of, texts_of, width_by};

use crate::fault::Fault;
use flat_orders::TextBuffer;
use gq_bindings::{By, LoaderLine};
use server::Server;
use std::alloc::{AllocError, Global};

/// The loaders of a server: for each a number that says its keys, and four texts.
pub struct LoaderTexts {
    /// Number of texts of a key, and 4 more where keys are compared without the case of `A` to
    /// `Z`.
    kinds: Vec<u32>,
    /// The name, the table, and the columns that it is by, which are empty for none.
    texts: TextBuffer,
}

impl Drop for LoaderTexts {
    fn drop(self) {
        let LoaderTexts {
            kinds: _kinds,
            texts: _texts,
        } = self;
    }
}

// Returns how many texts a key of a line's loader has: as many as it has columns.
fn width_of(line: &LoaderLine) -> u32
    ensures width { result
        ≡ width_by (option_map by_of line.now.by) }
    ensures few { result ≤ 2 }
{
    let Some(by) = &line.by else {
        return 0;
    };
    if by.second.is_some() { 2 } else { 1 }
}

/// The line of a server's loader, if it has one.
pub(crate) fn line_of(server: &Server, loader: usize) -> Option<&LoaderLine>
    ensures { option_map (λ line. loader_of line.now) result
        ≡ slice_get server.now.bindings.loaders loader }
{
    server.bindings().loaders().get(loader)
}

/// Returns how many texts a key of a server's loader has. That of a loader without a line has none.
pub(crate) fn key_width(server: &Server, loader: usize) -> u32
    ensures width { result ≡ width_at server.now loader }
    ensures few { result ≤ 2 }
{
    match line_of(server, loader) {
        Some(line) => width_of(line),
        None => 0,
    }
}

fn kind_of(line: &LoaderLine) -> u32
    ensures { result ≡ kind_of (loader_of line.now) }
{
    let Some(by) = &line.by else {
        return 0;
    };
    let texts = if by.second.is_some() { 2 } else { 1 };
    if by.fold { texts + 4 } else { texts }
}

// The columns that a loader is by.
fn columns_of(line: &LoaderLine) -> (&str, &str)
    ensures { result.0.now ∷ result.1.now ∷ []
        ≡ columns_by (option_map by_of line.now.by) }
{
    match &line.by {
        None => ("", ""),
        Some(
            By {
                column,
                second: None,
                ..
            },
        ) => (column.as_str(), ""),
        Some(
            By {
                column,
                second: Some(second),
                ..
            },
        ) => (column.as_str(), second.as_str()),
    }
}

// Writes the texts of a loader at the end. When out of memory, nothing is known of what was written.
fn write_texts(texts: &mut TextBuffer, line: &LoaderLine) -> Result<(), AllocError>
    ensures { OnOk result (texts.new
        ≡ texts.old ++ texts_of (loader_of line.now)) }
{
    let (one, two) = columns_of(line);
    texts.push(line.name.as_str())?;
    texts.push(line.table.as_str())?;
    texts.push(one)?;
    texts.push(two)
}

impl LoaderTexts {
    /// The loaders of this server, in order.
    pub fn of(alloc: Global, server: &Server) -> Result<LoaderTexts, AllocError>
        ensures kinds { IfOk result (λ l. l.kinds.items
            ≡ map kind_of server.now.bindings.loaders) }
        ensures texts { IfOk result (λ l. l.texts ≡ flat_map
            texts_of server.now.bindings.loaders) }
    {
        let lines = server.bindings().loaders();
        let mut kinds = Vec::with_capacity(alloc, lines.len())?;
        let mut texts = TextBuffer::new(alloc);
        for line in lines {
            kinds.push(kind_of(line))?;
            write_texts(&mut texts, line)?;
        }
        Ok(LoaderTexts { kinds, texts })
    }

    /// Returns how many loaders there are.
    pub fn len(&self) -> usize
        ensures { result ≡ length self.now.kinds.items }
    {
        self.kinds.len()
    }

    /// Returns how many bytes their texts have together.
    pub fn byte_len(&self) -> usize
        ensures { result ≡ size_of self.now.texts }
    {
        self.texts.byte_len()
    }

    /// Copies the number of each loader, where each text ends, and the texts.
    pub fn copy_to(
        &self,
        kinds: &mut [u32],
        ends: &mut [u32],
        bytes: &mut [u8],
    ) -> Result<(), Fault>
        ensures kinds { OnOk result
            (kinds.new ≡ self.now.kinds.items) }
        ensures texts { OnOk result
            (cut bytes.new 0 ends.new ≡ self.now.texts) }
        ensures kept { OnErr result
            ((kinds.new ≡ kinds.old) × (ends.new ≡ ends.old) × (bytes.new ≡ bytes.old)) }
    {
        if kinds.len() != self.kinds.len() {
            return Err(Fault::BadSize);
        }
        self.texts.copy_to(ends, bytes)?;
        kinds.copy_from_slice(&self.kinds);
        Ok(())
    }
}
