// Questions on one file, and on a digest and a name. A file's record is what `jampreso_file_open` answered, passed back.
ghost use Rattle.std.specs.Prelude.{◌≡◌, length};
ghost use Rattle.types.specs.Refusals.{refused_at};
ghost use Rattle.digest.specs.Fips.{sha1_of};
ghost use Rattle.chunk.specs.Index.{nth_of};
ghost use Rattle.name.specs.Names.{name_of};
ghost use Rattle.file.specs.Table.{opening};
ghost use Rattle.access.specs.Lookup.{lookup_of};
ghost use Rattle.commit.specs.Commits.{commit_at};
ghost use Rattle.steps.specs.Said.{phase_of};
ghost use Rattle.parents.specs.Walks.{step_of, total_of};
ghost use Rattle.parents.specs.Lists.{list_of, held_of};
ghost use Rattle.traverse.specs.Traversal.{traversal};
ghost use Rattle.sums.specs.Sums.{checksum_rule};
ghost use Rattle.flat.specs.Records.{file_of, flat_opened, Returns};
ghost use Rattle.marks.specs.Marks.{word_of, date_of, entry_of, check_of};
ghost use Rattle.places.specs.Places.{chunk_part, id_part, tree_part, base_part, sum_part};
ghost use Rattle.flat.specs.Images.{
  flat_digest,
  flat_name,
  flat_asked,
  flat_mark,
  flat_trailer,
  flat_entry,
  flat_found_in,
  flat_commit,
  flat_stepped,
  flat_total,
  flat_traversal,
};

use access::lookup;
use chunk::nth;
use commit::commit_at;
use digest::sha1;
use file::init::open;
use flat::records::file_of;
use flat::{
    Asked, Commit, Digest, Entry, Found, Name, Opened, Part, Record, Step, Total, Trailer,
    Traversal,
};
use marks::{date_at, entry_at, trailer, word_at};
use name::{Name as Named, read};
use parents::listing::list_at;
use parents::{count_at, step_at};
use places::{base_part, chunk_part, id_part, sum_part, tree_part};
use steps::phase_of;
use sums::verify_checksum;
use traverse::traverse;
use types::file::Position;

// The SHA-1 of bytes.
#[unsafe(no_mangle)]
pub extern "C" fn jampreso_sha1(s: &[u8]) -> Digest
    ensures { result ≡ flat_digest (sha1_of s.now) }
{
    let bytes = sha1(s);
    Digest { bytes }
}

// What a file's name says.
#[unsafe(no_mangle)]
pub extern "C" fn jampreso_name(name: &[u8]) -> Name
    ensures { result ≡ flat_name (name_of name.now) }
{
    let (kind, hash) = match read(name) {
        Named::Other => (0, [0; 20]),
        Named::Claims(hash) => (1, hash),
        Named::Hashless => (2, [0; 20]),
    };
    Name { kind, hash }
}

// The chunk of a file with an id, where the index is sound; no bytes at 0 where it is absent.
#[unsafe(no_mangle)]
pub extern "C" fn jampreso_chunk(s: &[u8], id: u32) -> Part
    ensures { result ≡ chunk_part s.now id }
{
    chunk_part(s, id)
}

// Entry `k` of a file's index, where that is sound; the id 0 and no bytes at 0 past the last.
#[unsafe(no_mangle)]
pub extern "C" fn jampreso_entry(s: &[u8], k: u32) -> Entry
    ensures { result ≡ flat_entry (nth_of s.now k) }
{
    nth(s, k).into()
}

// The trailer of any bytes of a file's size, and whether it is the SHA-1 of those before it.
#[unsafe(no_mangle)]
pub extern "C" fn jampreso_trailer(s: &[u8]) -> Trailer
    ensures { result ≡ flat_trailer (check_of s.now) }
{
    trailer(s).into()
}

// Opens one file.
#[tactic(auto, using(flat::proofs::Backs::returned))]
#[unsafe(no_mangle)]
pub extern "C" fn jampreso_file_open(s: &[u8]) -> Opened
    ensures is { result ≡ flat_opened (opening s.now) }
    ensures back { Returns s.now result }
{
    open(s).into()
}

// The id of a commit.
#[unsafe(no_mangle)]
pub extern "C" fn jampreso_file_id(s: &[u8], f: Record, pos: u32) -> Part
    ensures { result ≡ id_part s.now (file_of f) pos }
{
    id_part(s, file_of(f), Position(pos))
}

// The id of base `j`.
#[unsafe(no_mangle)]
pub extern "C" fn jampreso_file_base(s: &[u8], f: Record, j: u32) -> Part
    ensures { result ≡ base_part s.now (file_of f) j }
{
    base_part(s, file_of(f), j)
}

// The tree of a commit.
#[unsafe(no_mangle)]
pub extern "C" fn jampreso_file_tree(s: &[u8], f: Record, pos: u32) -> Part
    ensures { result ≡ tree_part s.now (file_of f) pos }
{
    tree_part(s, file_of(f), Position(pos))
}

// The trailer.
#[unsafe(no_mangle)]
pub extern "C" fn jampreso_file_checksum(s: &[u8], f: Record) -> Part
    ensures { result ≡ sum_part s.now (file_of f) }
{
    sum_part(s, file_of(f))
}

// Whether the trailer is the SHA-1.
#[unsafe(no_mangle)]
pub extern "C" fn jampreso_file_verify_checksum(s: &[u8], f: Record) -> Asked
    ensures { result ≡ flat_asked (refused_at (checksum_rule s.now (file_of f)) 0) }
{
    verify_checksum(s, file_of(f)).into()
}

// The position of an id.
#[unsafe(no_mangle)]
pub extern "C" fn jampreso_file_lookup(s: &[u8], f: Record, id: &[u8]) -> Found
    ensures { result ≡ flat_found_in (lookup_of s.now (file_of f) id.now) }
{
    lookup(s, file_of(f), id).into()
}

// A commit.
#[unsafe(no_mangle)]
pub extern "C" fn jampreso_file_commit(s: &[u8], f: Record, pos: u32) -> Commit
    ensures { result ≡ flat_commit (commit_at s.now (file_of f) pos) }
{
    commit_at(s, file_of(f), Position(pos)).into()
}

// One step over the parents of a commit. Its phase, passed back, goes on from there.
#[tactic(auto, using(flat::proofs::Backs::stepped))]
#[unsafe(no_mangle)]
pub extern "C" fn jampreso_file_step(s: &[u8], f: Record, pos: u32, phase: u32, edge: usize) -> Step
    ensures is { result ≡ flat_stepped (step_of s.now (file_of f) pos (phase_of phase edge)) }
    ensures next { phase_of result.phase result.edge ≡ (step_of s.now (file_of f) pos (phase_of phase edge)).next }
{
    step_at(s, file_of(f), Position(pos), phase_of(phase, edge)).into()
}

// The word that holds the parent which a step answers; no bytes at 0 where it answers the end.
#[unsafe(no_mangle)]
pub extern "C" fn jampreso_file_word(s: &[u8], f: Record, pos: u32, phase: u32, edge: usize) -> Part
    ensures { result ≡ flat_mark (word_of s.now (file_of f) pos (phase_of phase edge)) }
{
    word_at(s, file_of(f), Position(pos), phase_of(phase, edge)).into()
}

// The bytes that hold a commit's generation and time.
#[unsafe(no_mangle)]
pub extern "C" fn jampreso_file_date(s: &[u8], f: Record, pos: u32) -> Part
    ensures { result ≡ flat_mark (date_of s.now (file_of f) pos) }
{
    date_at(s, file_of(f), Position(pos)).into()
}

// Which of 64 to 67 a commit meets.
#[unsafe(no_mangle)]
pub extern "C" fn jampreso_file_entry(s: &[u8], f: Record, pos: u32) -> Asked
    ensures { result ≡ flat_asked (entry_of s.now (file_of f) pos) }
{
    entry_at(s, file_of(f), Position(pos)).into()
}

// How many parents a commit has.
#[unsafe(no_mangle)]
pub extern "C" fn jampreso_file_count(s: &[u8], f: Record, pos: u32) -> Total
    ensures { result ≡ flat_total (total_of s.now (file_of f) pos) }
{
    count_at(s, file_of(f), Position(pos)).into()
}

// The parents of a commit into `out`, and how many.
#[unsafe(no_mangle)]
pub extern "C" fn jampreso_file_list(s: &[u8], f: Record, pos: u32, out: &mut [u32]) -> Total
    ensures answer { result ≡ flat_total (list_of s.now (file_of f) pos (length out.old)) }
    ensures holds { out.new ≡ held_of s.now (file_of f) pos out.old }
{
    list_at(s, file_of(f), Position(pos), out).into()
}

// Verifies the one file of a chain and says what its commits add up to.
#[unsafe(no_mangle)]
pub extern "C" fn jampreso_file_traverse(s: &[u8], list: &[u8]) -> Traversal
    ensures { result ≡ flat_traversal (traversal 32 s.now list.now) }
{
    traverse(s, list).into()
}
