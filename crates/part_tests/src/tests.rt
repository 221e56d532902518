mod caches;
mod claims;
mod directories;
mod harts;
mod logs;
mod networks;
mod transactions;
