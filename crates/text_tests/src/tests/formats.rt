mod digits;
mod files;
mod shown;
