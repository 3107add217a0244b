// Finding a list inside a DNG file: which list is asked for is a number over C.
ghost use Rattle.std.specs.Prelude.{◌≡◌};
ghost use Rattle.rolbhunga.specs.Find.{none, refusal, told, found_for};

use list_find::{FindError, Place, Which};

// Document 02's number, and of a list that was found its first byte and its length.
#[repr(C)]
#[derive(Clone, Copy)]
pub struct FindNumbers {
    pub number: u32,
    pub start: usize,
    pub length: usize,
}

fn refused(number: u32) -> FindNumbers
    ensures { result ≡ none number }
{
    FindNumbers {
        number,
        start: 0,
        length: 0,
    }
}

fn number_of(why: FindError) -> u32
    ensures { result ≡ refusal why }
{
    match why {
        FindError::NotTiff => 30,
        FindError::Outside => 31,
        FindError::TooMany => 32,
        FindError::Missing => 33,
    }
}

fn find_numbers(found: Result<Place, FindError>) -> FindNumbers
    ensures { result ≡ told found }
{
    match found {
        Ok(place) => FindNumbers {
            number: 0,
            start: place.start,
            length: place.len,
        },
        Err(why) => refused(number_of(why)),
    }
}

pub fn rolbhunga_find(file: &[u8], which: u32) -> FindNumbers
    ensures { result ≡ found_for file.now which }
{
    let list = match which {
        1 => Which::List1,
        2 => Which::List2,
        3 => Which::List3,
        _ => return refused(1),
    };
    find_numbers(list_find::find(file, list))
}
