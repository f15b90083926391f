// Output: items written one after another into lent memory, as many as fit.
#![tactic(auto)]

ghost use Rattle.std.specs.Prelude.{[], ◌∷◌, ◌++◌, ◌≤◌, length, decimal};
ghost use Rattle.output.specs.From.{PutsFrom};

use terms::Refusal;

// Lent memory, of which the first `count` items are written: bytes so far, and by its type records as well. No `Vec`: writing takes no heap.
// By hand, as a book and a sparse board hold theirs: a struct shared by the three could lend no slice to write in, past its ghost field.
#[derive(Drop)]
pub struct Output<'a, T> {
    memory: &'a mut [T],
    count: usize,
    ghost within: { count ≤ length memory.now },
}

impl<'a, T: Copy> Output<'a, T> {
    ghost use Rattle.std.specs.Prelude.{◌≡◌, [], ◌∷◌};
    ghost use Rattle.output.specs.Puts.{Puts};

    // Output to the memory given, of which nothing is written yet.
    pub fn new(memory: &'a mut [T]) -> Output<'a, T>
        ensures over_it { result.memory.ghost_name ≡ memory.entry.ghost_name }
        ensures as_it_was { result.memory.now ≡ memory.old }
        ensures nothing_yet { result.count ≡ 0 }
    {
        Output { memory, count: 0 }
    }

    // Puts an item, if there is room.
    pub fn put(&mut self, item: T) -> Result<(), Refusal>
        ensures { Puts self.old (item ∷ []) result self.new }
    {
        if self.count >= self.memory.len() {
            return Err(Refusal::MemoryTooShort);
        }
        self.memory[self.count] = item;
        self.count += 1;
        Ok(())
    }

    // How many items are written.
    pub fn count(&self) -> usize
        ensures { result ≡ self.now.count }
    {
        self.count
    }
}

impl Output<'_, u8> {
    ghost use Rattle.std.specs.Prelude.{[], ◌∷◌, ◌++◌, decimal};
    ghost use Rattle.output.specs.Puts.{Puts};

    // Puts a number in decimal. By hand: `write!` says nothing of what stands in the memory after an error. A digit fits a byte, so `as` loses nothing.
    pub fn put_number(&mut self, number: u64) -> Result<(), Refusal>
        ensures { Puts self.old (decimal number) result self.new }
    {
        if number < 10 {
            return self.put(b'0' + number as u8);
        }
        self.put_number(number / 10)?;
        self.put(b'0' + (number % 10) as u8)
    }

    // Puts a number in decimal, and the byte that ends it.
    pub fn put_field(&mut self, number: u64, end: u8) -> Result<(), Refusal>
        ensures { Puts self.old (decimal number ++ (end ∷ [])) result self.new }
    {
        self.put_number(number)?;
        self.put(end)
    }

    // Puts bytes, one by one: `copy_from_slice` would first have to cut them to the room that is left, and refuse after.
    pub fn put_bytes(&mut self, bytes: &[u8]) -> Result<(), Refusal>
        ensures { Puts self.old bytes.now result self.new }
    {
        for byte in bytes {
            self.put(*byte)?;
        }
        Ok(())
    }
}

// Puts an item at the place reached, if one was reached and there is room. Here and in the three below an earlier refusal is handed on, a place past the
// memory is refused, and nothing changes in either case. By hand: they are promised with that place, which the methods hold in the struct.
pub fn put<T: Copy>(out: &mut [T], at: Result<usize, Refusal>, item: T) -> Result<usize, Refusal>
    ensures { PutsFrom out.old at (item ∷ []) result out.new }
{
    let place = put_nothing(out, at)?;
    let mut output = Output {
        memory: out,
        count: place,
    };
    output.put(item)?;
    Ok(output.count)
}

// Puts a number in decimal.
pub fn put_number(out: &mut [u8], at: Result<usize, Refusal>, number: u64) -> Result<usize, Refusal>
    ensures { PutsFrom out.old at (decimal number) result out.new }
{
    let place = put_nothing(out, at)?;
    let mut output = Output {
        memory: out,
        count: place,
    };
    output.put_number(number)?;
    Ok(output.count)
}

// Puts a number in decimal, and the byte that ends it.
pub fn put_field(
    out: &mut [u8],
    at: Result<usize, Refusal>,
    number: u64,
    end: u8,
) -> Result<usize, Refusal>
    ensures { PutsFrom out.old at (decimal number ++ (end ∷ [])) result out.new }
{
    let place = put_nothing(out, at)?;
    let mut output = Output {
        memory: out,
        count: place,
    };
    output.put_field(number, end)?;
    Ok(output.count)
}

// Puts bytes.
pub fn put_bytes(out: &mut [u8], at: Result<usize, Refusal>, bytes: &[u8]) -> Result<usize, Refusal>
    ensures { PutsFrom out.old at bytes.now result out.new }
{
    let place = put_nothing(out, at)?;
    let mut output = Output {
        memory: out,
        count: place,
    };
    output.put_bytes(bytes)?;
    Ok(output.count)
}

// Puts no item, which is refused at a place past the memory.
fn put_nothing<T>(out: &[T], at: Result<usize, Refusal>) -> Result<usize, Refusal>
    ensures { PutsFrom out.now at [] result out.now }
{
    let place = at?;
    if place > out.len() {
        return Err(Refusal::MemoryTooShort);
    }
    Ok(place)
}
