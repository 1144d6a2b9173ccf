ghost use Rattle.std.specs.Prelude.{◌≡◌, Err, IfOk, Ok};
ghost use Rattle.pe_image.specs.Layout.{pe_layout};
ghost use Rattle.pe_image.specs.declared.refusal.PeRefusal.{PeRefusal};

use crate::case::{Case, Question};
use crate::facts::facts_text;
use pe_image::{Pe, PeFail, PeRefusal};
use std::alloc::{AllocError, Global};

/// Opens a file. In plain words: an image is what the layout says, and a refusal is the one that the layout says.
fn open(alloc: Global, file: &[u8]) -> Result<Pe, PeFail>
    ensures image { IfOk result (λ pe. pe_layout file.now ≡ Ok pe) }
    ensures refusal { (r : PeRefusal) → result ≡ Err (PeFail.Refused r) → pe_layout file.now ≡ Err r }
{
    Pe::open(alloc, file)
}

/// The number of a refusal, and its name with the number that it has.
fn refusal_text(alloc: Global, refusal: PeRefusal) -> Result<String, AllocError> {
    let name = match refusal {
        PeRefusal::TooLarge => "1 TooLarge",
        PeRefusal::NoDos => "2 NoDos",
        PeRefusal::NoPe => "3 NoPe",
        PeRefusal::BadMagic(magic) => return format!(in alloc; "refused 4 BadMagic({magic})"),
        PeRefusal::BadSections => "5 BadSections",
        PeRefusal::NoCli => "6 NoCli",
        PeRefusal::BadCli => "7 BadCli",
        PeRefusal::BadRoot => "8 BadRoot",
        PeRefusal::BadStreams => "9 BadStreams",
        PeRefusal::NoTables => "10 NoTables",
    };
    format!(in alloc; "refused {name}")
}

/// What is asked, of an image that is open.
fn found(alloc: Global, pe: &Pe, case: &Case) -> Result<String, AllocError>
    requires { pe_layout case.now.file.items ≡ Ok pe.now }
{
    let file = case.file.as_slice();
    match case.question {
        Question::Open => facts_text(alloc, pe.facts()),
        Question::Resources => format!(in alloc; "{:x}", pe.resources()),
        Question::At(rva) => {
            let len = pe.bytes_at(file, rva).len();
            match pe.place(rva) {
                Some(place) => format!(in alloc; "{place:x} {len:x}"),
                None => format!(in alloc; "none {len:x}"),
            }
        }
        Question::Stream(name) => hex::encode(alloc, pe.stream(file, name)),
    }
}

/// The answer to a case.
pub(crate) fn answer(alloc: Global, case: &Case) -> Result<String, AllocError> {
    match open(alloc, case.file.as_slice()) {
        Ok(pe) => found(alloc, &pe, case),
        Err(PeFail::Refused(refusal)) => refusal_text(alloc, refusal),
        Err(PeFail::NoMemory) => Err(AllocError),
    }
}
