//! What an open file keeps, and how its header is found.
ghost use Rattle.std.specs.Prelude.{◌≡◌, ◌+◌, ◌^◌, ◌≤◌, List, ℕ, length, is_some, true, Option, Some, None, false, MatchOption, IfOk};
ghost use Rattle.std.specs.Prelude.{IfErr, OnOk, OnErr};
ghost use Rattle.std.specs.Option.{option_map};
ghost use Rattle.raf_format.specs.Cipher.{cipher_of};
ghost use Rattle.raf.specs.Loaded.{Front};
ghost use Rattle.raf_format.specs.File.{IsFile, shape_of, chunk_count, layout_len};
ghost use Rattle.raf_format.specs.Version.{tag_len_of};
ghost use Rattle.raf.specs.Handle.{HasRoom, Paired, handle_of};
ghost use Rattle.raf.specs.Loaded.{Sound};
ghost use Rattle.raf.specs.Outside.{Kept, Quiet, Moved};
ghost use Rattle.raf.specs.Opening.{LaidOut, WhyNotLaidOut, NotOpened, Opened, OpenedBare, Within, RefusalFault, NumbersRefuse};
ghost use Rattle.raf_tree.specs.Hashing.{Hashing};
ghost use Rattle.raf.specs.Growing.{Grew};
ghost use Rattle.raf_io.specs.Kinds.{kind_of};

use crate::growing::{grow, tree_for};
use crate::outside::Parts;
use raf_format::{
    Algorithm, Header, algorithm_number, chunk_key, header_tag_fits, layout_len, nonce_length,
    parse_header,
};
use raf_io::{Error, ErrorKind, RafIo, RafRng, Reason};
use raf_tree::{MerkleHasher, Tree};
use std::alloc::Global;

/// What an open file keeps: its keys, its header, room for two records, the tree where it has a hasher, and the kept mark.
pub struct OpenFile<A: Algorithm> {
    /// The file's key.
    pub key: A::Key,
    /// The key of its chunks.
    pub chunk_key: A::Key,
    /// Its header.
    pub header: Header,
    /// Room for the longest record.
    pub first: Vec<u8>,
    /// Room for another.
    pub second: Vec<u8>,
    /// The tree.
    pub tree: Option<Tree>,
    /// A change was cut short.
    pub broken: bool,
    ghost first_room: { length first.items ≡ (cipher_of A.variant).nonce_len + header.chunk_size + tag_len_of header.version },
    ghost second_room: { length second.items ≡ (cipher_of A.variant).nonce_len + header.chunk_size + tag_len_of header.version },
    ghost sound: { Sound (cipher_of A.variant) header },
    ghost room: { HasRoom (chunk_count header.chunk_size header.file_size) tree },
    ghost derived: { A.key_list chunk_key ≡ (cipher_of A.variant).chunk_key (A.key_list key) header.id },
}

impl<A: Algorithm> Drop for OpenFile<A> {
    fn drop(self) {
        let OpenFile {
            key: _,
            chunk_key: _,
            header: _,
            first: _,
            second: _,
            tree: _,
            broken: _,
        } = self;
    }
}

/// How many chunks a file has.
pub fn count_of(header: &Header) -> u64
    requires { 1 ≤ header.now.chunk_size }
    ensures { result ≡ chunk_count header.now.chunk_size header.now.file_size }
{
    if header.file_size == 0 {
        0
    } else {
        (header.file_size - 1) / u64::from(header.chunk_size) + 1
    }
}

/// How many bytes the storage of a file has, or None exactly where that is no `u64`.
pub fn layout_of<A: Algorithm>(header: &Header) -> Option<u64>
    requires least { 16 ≤ header.now.chunk_size }
    requires most { header.now.chunk_size ≤ 1048576 }
    ensures { MatchOption result (2 ^ 64 ≤ layout_len (shape_of (cipher_of A.variant) header.now) header.now.file_size)
        (λ n. n ≡ layout_len (shape_of (cipher_of A.variant) header.now) header.now.file_size) }
{
    layout_len(
        nonce_length::<A>(),
        header.tag_len(),
        header.chunk_size,
        header.file_size,
    )
}

/// The header of a storage, as it is found: its fields, and its bytes.
#[derive(Drop)]
pub struct Found {
    /// Its fields.
    pub header: Header,
    /// Its bytes.
    pub bytes: [u8; 96],
}

/// Finds the header of a storage whose length fits it. The tag isn't looked at.
pub fn find_header<A: Algorithm, I: RafIo, R: RafRng, H: MerkleHasher>(
    parts: &mut Parts<I, R, H>,
) -> Result<Found, Error>
    ensures found { (b : List ℕ) → parts.old.bytes ≡ Some b
        → IfOk result (λ f. LaidOut (cipher_of A.variant) b f.header × Front b f.bytes) }
    ensures sound { IfOk result (λ f. Sound (cipher_of A.variant) f.header) }
    ensures refused { (b : List ℕ) → parts.old.bytes ≡ Some b → IfErr result (λ e. WhyNotLaidOut (cipher_of A.variant) b (kind_of e)) }
    ensures numbers { IfErr result (λ e. (E : List ℕ → Hashing) (setting : Option (List ℕ)) (most : Option ℕ)
        → NumbersRefuse E setting most (kind_of e)) }
    ensures fault { IfErr result (λ e. RefusalFault (kind_of e) parts.old parts.new) }
    ensures quiet { OnOk result (Quiet parts.old parts.new) }
    ensures kept { Kept parts.old parts.new }
    ensures moved { Moved parts.old parts.new 96 96 0 0 0 }
    ensures within { (b : List ℕ) → parts.old.bytes ≡ Some b → Within parts.old parts.new (length b) }
{
    let size = parts.size()?;
    if size < 96 {
        return Err(Error::InvalidArgument(Reason::Header));
    }
    let mut bytes = [0u8; 96];
    parts.read(&mut bytes, 0)?;
    let header = match parse_header(&bytes) {
        Ok(header) => header,
        Err(_) => return Err(Error::InvalidArgument(Reason::Header)),
    };
    if header.algorithm != algorithm_number::<A>() {
        return Err(Error::InvalidArgument(Reason::AlgorithmMismatch));
    }
    match layout_of::<A>(&header) {
        Some(len) if len == size => Ok(Found { header, bytes }),
        _ => Err(Error::InvalidArgument(Reason::Layout)),
    }
}

// Room of zeros.
fn room(alloc: Global, len: usize) -> Result<Vec<u8>, Error>
    ensures len { IfOk result (λ v. length v.items ≡ len) }
    ensures none { IfErr result (λ e. kind_of e ≡ ErrorKind.OutOfMemory) }
{
    let mut buf = Vec::new(alloc);
    match buf.resize(len, 0) {
        Ok(()) => Ok(buf),
        Err(_) => Err(Error::OutOfMemory),
    }
}

/// Room for two records of a file with this header.
pub fn rooms<A: Algorithm>(alloc: Global, header: &Header) -> Result<(Vec<u8>, Vec<u8>), Error>
    requires { header.now.chunk_size ≤ 1048576 }
    ensures first { IfOk result (λ r. length r.0.items ≡ (cipher_of A.variant).nonce_len + header.now.chunk_size
        + tag_len_of header.now.version) }
    ensures second { IfOk result (λ r. length r.1.items ≡ (cipher_of A.variant).nonce_len + header.now.chunk_size
        + tag_len_of header.now.version) }
    ensures none { IfErr result (λ e. kind_of e ≡ ErrorKind.OutOfMemory) }
{
    let len = nonce_length::<A>() + header.chunk_size as usize + header.tag_len();
    let first = room(alloc, len)?;
    let second = room(alloc, len)?;
    Ok((first, second))
}

impl<A: Algorithm> OpenFile<A> {
    /// A file with this header, key, tree and rooms.
    pub fn of(key: &A::Key, header: &Header, rooms: (Vec<u8>, Vec<u8>), tree: Option<Tree>) -> Self
        requires sound { Sound (cipher_of A.variant) header.now }
        requires room { HasRoom (chunk_count header.now.chunk_size header.now.file_size) tree }
        requires first { length rooms.0.items ≡ (cipher_of A.variant).nonce_len + header.now.chunk_size + tag_len_of header.now.version }
        requires second { length rooms.1.items ≡ (cipher_of A.variant).nonce_len + header.now.chunk_size + tag_len_of header.now.version }
        ensures key { result.key ≡ key.now }
        ensures header { result.header ≡ header.now }
        ensures tree { result.tree ≡ tree }
        ensures unmarked { result.broken ≡ false }
    {
        let (first, second) = rooms;
        OpenFile {
            key: *key,
            chunk_key: chunk_key::<A>(key, &header.id),
            header: *header,
            first,
            second,
            tree,
            broken: false,
        }
    }
}

// Opens a file but for its tree, which has no leaves yet.
fn open_bare<A: Algorithm, I: RafIo, R: RafRng, H: MerkleHasher>(
    alloc: Global,
    parts: &mut Parts<I, R, H>,
    key: &A::Key,
    max_chunks: u64,
) -> Result<OpenFile<A>, Error>
    ensures opened { IfOk result (λ f. OpenedBare (cipher_of A.variant) H.hashing (A.key_list key.now)
        (option_map (λ _. max_chunks) parts.old.setting) parts.old
        (handle_of parts.new (A.key_list f.key) f.header f.tree f.broken)) }
    ensures refused { IfErr result (λ e. NotOpened (cipher_of A.variant) H.hashing (A.key_list key.now)
        (option_map (λ _. max_chunks) parts.old.setting) parts.old parts.new (kind_of e)) }
{
    let found = find_header::<A, I, R, H>(parts)?;
    let count = count_of(&found.header);
    let tree = tree_for::<H>(alloc, &parts.hasher, max_chunks, count)?;
    let rooms = rooms::<A>(alloc, &found.header)?;
    if !header_tag_fits::<A>(&found.bytes, key) {
        return Err(Error::AuthenticationFailed);
    }
    Ok(OpenFile::<A>::of(key, &found.header, rooms, tree))
}

/// Makes the tree of a file anew from its chunks. Where a hash was asked and then something failed, the file is marked.
pub fn grow_file<A: Algorithm, I: RafIo, R: RafRng, H: MerkleHasher>(
    parts: &mut Parts<I, R, H>,
    file: &mut OpenFile<A>,
) -> Result<(), Error>
    requires some { is_some file.old.tree ≡ true }
    requires paired { Paired H.hashing parts.old.setting file.old.tree }
    requires unmarked { file.old.broken ≡ false }
    ensures grew { Grew (cipher_of A.variant) H.hashing (A.key_list file.old.chunk_key) file.old.header parts.old parts.new file.old.tree
        file.new.tree file.new.broken result }
    ensures unmarked { OnOk result (file.new.broken ≡ false) }
    ensures same { (file.new.key ≡ file.old.key) × (file.new.header ≡ file.old.header) }
{
    grow::<A, I, R, H>(
        parts,
        &file.chunk_key,
        &file.header,
        &mut file.first,
        &mut file.tree,
        &mut file.broken,
    )?;
    file.broken = false;
    Ok(())
}

/// Opens a file, and makes its tree where there is a hasher. All the memory that it needs later is taken here.
pub fn open_file<A: Algorithm, I: RafIo, R: RafRng, H: MerkleHasher>(
    alloc: Global,
    parts: &mut Parts<I, R, H>,
    key: &A::Key,
    max_chunks: u64,
) -> Result<OpenFile<A>, Error>
    ensures opened { IfOk result (λ f. Opened (cipher_of A.variant) H.hashing (A.key_list key.now)
        (option_map (λ _. max_chunks) parts.old.setting) parts.old
        (handle_of parts.new (A.key_list f.key) f.header f.tree f.broken)) }
    ensures paired { IfOk result (λ f. Paired H.hashing parts.new.setting f.tree) }
    ensures refused { IfErr result (λ e. NotOpened (cipher_of A.variant) H.hashing (A.key_list key.now)
        (option_map (λ _. max_chunks) parts.old.setting) parts.old parts.new (kind_of e)) }
{
    let mut file = open_bare::<A, I, R, H>(alloc, parts, key, max_chunks)?;
    if file.tree.is_none() {
        return Ok(file);
    }
    grow_file::<A, I, R, H>(parts, &mut file)?;
    Ok(file)
}
