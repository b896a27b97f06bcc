// Standard output whose failures are passed over.
ghost use Rattle.std.specs.Prelude.{IsOk};

use std::fmt::Display;
use std::io;

// What standard output does not take is not printed, and the program goes on: none ends by its prints, and its status says nothing of them.
#[derive(Drop)]
pub struct Unheeded<R> {
    pub out: R,
}

impl<R: Print> Print for Unheeded<R> {
    fn print<D: Display + Drop>(&self, value: D) -> io::Result<()>
        ensures { IsOk result }
    {
        let _ = self.out.print(value);
        Ok(())
    }

    fn println<D: Display + Drop>(&self, value: D) -> io::Result<()>
        ensures { IsOk result }
    {
        let _ = self.out.println(value);
        Ok(())
    }

    fn write_all(&self, bytes: &[u8]) -> io::Result<()>
        ensures { IsOk result }
    {
        let _ = self.out.write_all(bytes);
        Ok(())
    }
}
