//! Objects whose calls are watched. What they tell is what the objects within them tell.

use hpf_io::{Failed, LoadError, Loader, Sink, Source, Text};
use std::alloc::Global;

/// The calls of a source or a sink.
#[derive(Clone, Copy, Debug, Default)]
pub struct Calls {
    /// How many bytes they moved.
    pub moved: usize,
    /// How many of them failed.
    pub failed: usize,
}

impl Calls {
    /// Counts a call that moved so many bytes, or failed.
    fn count(&mut self, moved: Result<usize, Failed>) {
        match moved {
            Ok(moved) => self.moved = self.moved.saturating_add(moved),
            Err(Failed) => self.failed = self.failed.saturating_add(1),
        }
    }
}

/// A source or a sink whose calls are counted.
#[derive(Drop)]
pub struct Watched<T: Drop> {
    pub inner: T,
    pub calls: Calls,
}

impl<T: Drop> Watched<T> {
    /// A source or a sink of which there was no call yet.
    pub fn new(inner: T) -> Watched<T> {
        Watched {
            inner,
            calls: Calls::default(),
        }
    }
}

impl<S: Source + Drop> Source for Watched<S> {
    ghost state = { λ s. S.state s.inner };

    fn read(&mut self, into: &mut [u8]) -> Result<usize, Failed> {
        let answer = self.inner.read(into);
        self.calls.count(answer);
        answer
    }

    ghost told_below_last = { λ s. S.told_below_last s.inner };
}

impl<K: Sink + Drop> Sink for Watched<K> {
    ghost state = { λ s. K.state s.inner };

    fn write(&mut self, from: &[u8]) -> Result<usize, Failed> {
        let answer = self.inner.write(from);
        self.calls.count(answer);
        answer
    }

    fn flush(&mut self) -> Result<(), Failed> {
        let answer = self.inner.flush();
        self.calls.count(answer.map(|()| 0));
        answer
    }

    ghost told_below_last = { λ s. K.told_below_last s.inner };
}

/// A load that was asked for.
#[derive(Drop)]
pub struct Asked {
    pub name: String,
    pub limit: usize,
    pub is_failed: bool,
}

/// A loader, and what it was asked for.
#[derive(Drop)]
pub struct WatchedLoader<L: Drop> {
    pub inner: L,
    pub asked: Vec<Asked>,
}

impl<L: Loader + Drop> Loader for WatchedLoader<L> {
    ghost state = { λ l. L.state l.inner };

    fn load(&mut self, alloc: Global, name: &str, limit: usize) -> Result<Text, LoadError> {
        let name_asked = String::from_str(alloc, name).map_err(LoadError::Memory)?;
        self.asked.try_reserve(1).map_err(LoadError::Memory)?;
        let answer = self.inner.load(alloc, name, limit);
        let is_failed = matches!(answer, Err(LoadError::Failed));
        let asked = Asked {
            name: name_asked,
            limit,
            is_failed,
        };
        let _ = self.asked.push(asked);
        answer
    }

    ghost told_below_last = { λ l. L.told_below_last l.inner };
}
