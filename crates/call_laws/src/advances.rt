// Theorems only: what holds of every advance, whatever is lent.
